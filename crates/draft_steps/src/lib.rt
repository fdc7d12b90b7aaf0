//! What steps change of the heap, apart from it, and the stage of the notes.
#![tactic(auto)]

mod notes;
mod steps;

pub use notes::draft_notes;
pub use steps::{DraftStep, step_of};
