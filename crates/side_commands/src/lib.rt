//! The modes of the command beside the check: the settings of a file in the newest version, and the counts of a generated program.
#![tactic(auto)]

mod counts;
mod migration;
mod reading;

pub use counts::counts_answer;
pub use migration::settings_answer;
