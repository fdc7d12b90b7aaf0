//! The first steps of a run, how it came to its end, and the text of its ledger.
#![tactic(auto)]

mod running;

pub use ledger_text::How;
pub use running::{RunEnd, print_ledger, run};
