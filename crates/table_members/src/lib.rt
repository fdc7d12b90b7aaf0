//! The fields, methods, constructors and constants of a program's table, by their declarations.
#![tactic(auto)]

mod fields;
mod methods;
mod signatures;

pub use fields::table_fields;
pub use methods::table_methods;
