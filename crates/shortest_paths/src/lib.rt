//! Shortest paths to the facts that a search of a body reached.
#![tactic(auto)]

mod telling;

pub use telling::path_to;
