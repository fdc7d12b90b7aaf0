//! The mode `run` over the files of a command.
#![tactic(auto)]

mod choices;
mod runs;

pub use runs::{MainRun, run_inputs};
