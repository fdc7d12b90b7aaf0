//! Ends of frames and of their calls, of which only the objects that change are looked at: those that the frame owns, those that its
//! call notes, resets or finishes, and what the caller held before.
#![tactic(auto)]

mod births;
mod frames;
mod results;
mod returns;

pub use returns::draft_returned;
