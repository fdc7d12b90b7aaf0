//! The super types of the classes of a program: what each class extends and implements, and what stands above it.
#![tactic(auto)]

mod cyclic;
mod headers;
mod kinds;
mod search;
mod super_table;
mod supers;

pub use cyclic::{cycles, is_under};
pub use headers::header_table;
pub use kinds::{bad_supers, is_abstract, is_final};
pub use search::{clear_marks, found_above};
pub use super_table::{SuperTable, table_of_supers};
pub use supers::{Supers, all_direct, all_supers, class_named, classes_named};
