//! What the annotations of a method or constructor make of its signature: the positions and fields that they name, the sets of
//! names that they list, and the marks of its parameters and result.
#![tactic(auto)]

mod effective;
mod sets;
mod targets;

pub use effective::{is_plain, reset_by, sign};
pub use sets::{own_or, own_set};
pub use targets::{has_object, keeps_object, own_fields, target_of};
