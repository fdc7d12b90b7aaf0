//! The pass over super types and throws clauses, with super classes of the library that have obligations.
#![tactic(auto)]

mod obligations;
mod own_sets;
mod super_pass;

pub use obligations::obligation_refusal;
pub use super_pass::super_refusal;
