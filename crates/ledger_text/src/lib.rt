//! The text of a ledger: a line for each entry, and a last line that says how the run ended.
#![tactic(auto)]

mod how;
mod ledger;
mod lines;

pub use how::How;
pub use ledger::print_entries;
