//! Calls that create an obligation anew, and which of them are refused.
#![tactic(auto)]

mod reset_move;
mod reset_rule_cases;
mod targets;

pub use reset_move::ResetMove;
pub use reset_rule_cases::reset_rule;
pub use targets::reset_step;
