//! Which methods were called on an object: what a step adds, what a call asks for and what an end promised.
#![tactic(auto)]

mod called_rows;
mod override_refusals;
mod preconditions;
mod promises;

pub use called_rows::called_step;
pub use override_refusals::override_rule;
pub use preconditions::precondition;
pub use promises::ensures_at;
