//! What every program of files has:
//!
//! - The library of a program of files stands by itself: what it names, gives and throws is its own.
//! - No argument of a super call in the program of files refers to the object that is being made.
//! - A program of files has what the laws on safety ask of every program.
#![tactic(auto)]

mod file_condition;
mod super_argument;
mod whole_library;

pub use file_condition::{read_program_keeps_obligations, read_program_meets_conditions};
pub use super_argument::read_program_passes_no_this;
pub use whole_library::{
    read_constants_are_library, read_exceptions_are_library, read_library_gives_its_classes,
    read_library_throws_its_classes, read_program_has_whole_library, read_roots_are_library,
    read_string_is_no_exception, read_texts_are_light, table_has_whole_library,
};
