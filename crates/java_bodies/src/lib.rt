//! The bodies of methods and constructors (JLS 8.4.7, 8.8.7): their typed statements, and the refusals in them.
#![tactic(auto)]

mod typed_statements;

pub use declared_bodies::{
    BodyTree, ConstructorCall, DeclaredBody, all_bodies, count_static_initializers,
    field_constants, variable_table,
};
pub use typed_statements::body_statements;
