//! The table of a program with the bodies of its methods.
#![tactic(auto)]

mod bodies;

pub use bodies::with_bodies;
