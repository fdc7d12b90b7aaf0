//! The state of a run, and the small changes that its steps are made of.
#![tactic(auto)]

mod changes;
mod run_state;

pub use changes::{add_array, add_lines, both, put_top};
pub use run_state::RunState;
