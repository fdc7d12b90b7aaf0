//! The files of a command: their numbers, their names, and their trees, or the first refusal in these.
#![tactic(auto)]

mod fronts;
mod inputs;
mod names;

pub use fronts::{SourceTrees, front};
pub use names::{file_names, files_have_their_names};
