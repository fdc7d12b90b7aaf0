//! The text of a report: the obligation that is not met, the rule that is broken, and the path that shows it.
#![tactic(auto)]

mod names;
mod report;
mod steps;
mod words;

pub use report::{Report, print_report};
