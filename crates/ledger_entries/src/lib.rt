//! The lines of the ledger that a change of the heap writes. Only objects whose class has a must-call set have lines, and the lines of
//! one kind go by the objects' numbers.
#![tactic(auto)]

mod called;
mod lines;
mod names;

pub use called::called_entries;
pub use lines::{birth_entries, by_number, leak_entries, owner_entries, reset_entries};
pub use names::names_in_order;
