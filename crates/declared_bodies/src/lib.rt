//! The bodies of methods and constructors as they are declared (JLS 8.4.7, 8.8.7): which a program has, their variables, and with
//! what those of constructors begin.
#![tactic(auto)]

mod body_trees;
mod declared_bodies;
mod heads;
mod super_calls;
mod variables;

pub use body_trees::BodyTree;
pub use declared_bodies::{DeclaredBody, all_bodies};
pub use field_initializers::{
    ProgramScope, count_static_initializers, field_constants, parameters,
};
pub use heads::push_head;
pub use super_calls::ConstructorCall;
pub use variables::variable_table;
