//! Heaps in which no object is left to lose. A frame that changes its places can lose no other object than the roots of what it held
//! before, so that a step that leaves the heap as it is looks at those alone.
#![tactic(auto)]

mod frames;
mod settled;

pub use frames::drops_any;
pub use settled::{is_settled, is_settled_heap};
