//! The choices file of a run: one line for each call of the library.
#![tactic(auto)]

mod line;
mod numbers;
mod reading;

pub use reading::read_choices;
pub use stub_conduct::{Choice, Choices};
