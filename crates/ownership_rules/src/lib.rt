//! Where obligations are born and how they move: at calls and at returns.
#![tactic(auto)]

mod births_at_entry;
mod births_of_steps;
mod calls;
mod field_births;
mod moved;
mod origins;
mod picks;
mod returns;

pub use births_at_entry::entry_births;
pub use births_of_steps::births;
pub use calls::{move_at_call, owner_type};
pub use moved::Moved;
pub use returns::{move_at_return, result_type};
