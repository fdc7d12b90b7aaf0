//! The rules of names, of fields, of `this`, of assignments and of calls, by the facts of their parts and by what a name means
//! (JLS 6.5, 15.8.3, 15.9, 15.11, 15.12, 15.26.1).
#![tactic(auto)]

mod assignments;
mod calls;
mod fields;
mod names;

pub use assignments::{assignment_by, may_assign_field, target_in};
pub use calls::{class_call_by, new_object_by, object_call_by, super_call_by, unqualified_call_by};
pub use fields::{class_field_by, field_access_by};
pub use names::{implied_this, library_constant_by, name_by, this_by, variable_by};
