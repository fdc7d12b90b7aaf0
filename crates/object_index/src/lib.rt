//! For each object, which objects its fields own and which are linked to it, so that a step that gives up what a holder has, or that resets
//! an object with its aliases, finds them without a look through the heap.
#![tactic(auto)]

mod adding;
mod building;
mod index;
mod lists;

pub use adding::{add_object, change_object};
pub use building::heap_index;
pub use index::ObjectIndex;
