//! The initialisers of fields (JLS 8.3.2): which fields are constant variables, the statements that constructors begin with, and
//! all refusals in them.
#![tactic(auto)]

mod constants;
mod initializers;
mod static_fields;

pub use constants::field_constants;
pub use initializers::push_initializers;
pub use java_typed_expressions::arguments;
pub use source_classes::{
    DeclaredClass, NumberedMethod, ProgramScope, numbered_methods, parameters, surroundings_in,
};
pub use static_fields::count_static_initializers;
