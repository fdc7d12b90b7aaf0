//! The births of a body and their origins, numbered in the order of the births: at the entry, and then node by node of the
//! body's graph.
#![tactic(auto)]

mod births;
mod origins;

pub use births::{all_entry_births, all_step_births};
pub use flow_rules::flow;
pub use origins::{MAX_PAIRS, all_origins, body_origins};
