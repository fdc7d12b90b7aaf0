//! The program of a table without bodies and of source files: its bodies are typed, and laid into tables.
#![tactic(auto)]

mod body_tables;
mod elaborations;

pub use body_tables::laid_bodies;
pub use elaborations::elaborate_bodies;
