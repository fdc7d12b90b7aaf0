//! The trees of whole files.
#![tactic(auto)]

mod file_trees;
mod parsing;

pub use parsing::{parse_stub, parse_unit};
