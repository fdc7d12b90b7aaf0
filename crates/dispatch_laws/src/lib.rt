//! Which method runs at a call, and of which classes there are objects:
//!
//! - The method that runs at a call is as the signature that the call names says, in a program whose overriding methods are not refused.
//! - Which method an object of a class with owning fields runs.
//! - Which methods may run at a call, and that each call is a plain one by the rules on overriding.
//! - Of which classes objects are that no `new` of the program makes: those that the library makes, and exceptions that operators throw; and
//!   that constants of the library create no obligation anew.
#![tactic(auto)]

mod dispatch;
mod library_class;
mod overriding_call;
mod own_method;

pub use dispatch::{call_is_plain, named_or_overriding_method_runs};
pub use library_class::{
    constants_create_nothing, library_makes_made_classes, operations_throw_made_classes,
};
pub use overriding_call::{
    library_object_runs_library_method, method_keeps_own_signature, overriding_is_right,
    running_method_keeps_signature, running_method_overrides,
};
pub use own_method::{must_call_method_is_named, owners_run_own_methods};
