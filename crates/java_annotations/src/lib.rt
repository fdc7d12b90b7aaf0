//! What the text of a program says in annotations and in the initialisers of static fields, as the program's table keeps it.
#![tactic(auto)]

mod annotations;
mod field_values;
mod forms;
mod initial;
mod kinds;
mod values;

pub use annotations::{raw_annotation, raw_annotations};
pub use initial::{initial_value, value_of, written_value};
