//! Changes of a heap of which only the objects that change are looked at, and which can be taken back without memory.
#![tactic(auto)]

mod losing;
mod making;
mod numbers;
mod renewals;
mod saved;

pub use losing::lose_among;
pub use making::make_object;
pub use numbers::{add_roots, rising};
pub use renewals::{end_frame_among, end_holder_among, reset_among};
pub use saved::{SavedObject, restore, save};
