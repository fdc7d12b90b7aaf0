//! The mode `run` of the command: the `main` that is run, the steps of its run, and the answer.
#![tactic(auto)]

mod answering;
mod mains;

pub use answering::run_answer;
