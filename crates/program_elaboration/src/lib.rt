//! The typed program of a table of classes and of source files.
#![tactic(auto)]

mod elaborations;

pub use elaborations::elaborate;
