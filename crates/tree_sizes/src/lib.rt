//! How many nodes typed statements have.
#![tactic(auto)]

mod expression_sizes;
mod room;
mod statement_sizes;

pub use room::check_room;
