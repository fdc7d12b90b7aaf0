//! What a step makes of a fact: the flow rules whole, the paths of facts, and what it is to accept a program.
#![tactic(auto)]

mod calls;
mod ends;
mod path_step;
mod rows;
mod turn;

pub use ownership_rules::{births, entry_births};
pub use path_step::PathStep;
pub use rows::flow;
