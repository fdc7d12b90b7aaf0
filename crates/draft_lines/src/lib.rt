//! The lines of the ledger for the few objects that a step changes, which stand by their numbers: the same lines as those of all
//! objects of the heap, without a look at the objects that stay as they are.
#![tactic(auto)]

mod called;
mod change;
mod leaks;
mod lines;

pub use called::add_called_lines;
pub use change::ObjectChange;
pub use leaks::{Leak, add_by_number, add_leak_lines, add_leaks};
pub use lines::{add_birth_lines, add_owner_lines, add_reset_lines};
