//! The words of the command: which of its modes they name, with which options and files.
#![tactic(auto)]

mod commands;
mod modes;
mod numbers;
mod parsing;
mod reading;
mod usage_lines;

pub use commands::{Command, Inputs, WordsStop};
pub use reading::read_words;
pub use usage_lines::usage;
