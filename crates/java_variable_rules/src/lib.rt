//! The rules of variables in the surroundings of a body: what the names of variables and of fields mean, field accesses, and
//! assignments, with the typed trees that are made (JLS 6.5.2, 6.5.6, 15.11, 15.14, 15.15, 15.26).
#![tactic(auto)]

mod assignments;
mod fields;
mod names;
mod targets;

pub use assignments::{assignment, compound_assignment, postfix_step, prefix_step};
pub use fields::{class_field, identifier, object_field};
pub use names::class_meant;
pub use targets::is_written_this;
