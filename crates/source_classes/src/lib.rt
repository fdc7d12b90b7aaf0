//! The classes of the source files with what the table has of them: their numbers and names, their fields and methods beside
//! what is written, and the parameters of their bodies.
#![tactic(auto)]

mod classes;
mod declared_parameters;
mod members;
mod names;
mod scope;

pub use classes::{DeclaredClass, source_classes};
pub use declared_parameters::parameters;
pub use java_statement_rules::{constant_value, count_unless};
pub use members::{NumberedField, NumberedMethod, numbered_fields, numbered_methods};
pub use names::index_names;
pub use scope::{ProgramScope, surroundings_in};
