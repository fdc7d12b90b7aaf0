//! The table of a program from its trees: all classes of the stubs and the source files, with their members and without bodies.
#![tactic(auto)]

mod build;
mod class_members;
mod members;
mod numbers;
mod table;

pub use build::build_table;
