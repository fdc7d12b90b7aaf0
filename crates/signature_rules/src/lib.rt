//! The rules on effective signatures, in the order in which they refuse a program.
#![tactic(auto)]

mod owners;
mod passes;
mod results;
mod text_fields;
mod texts;

pub use passes::rule_refusal;
