//! What paths reach in a body: the pairs of a node and a fact, each first by a path of the fewest steps.
#![tactic(auto)]

mod points;
mod transfer;

pub use transfer::{BodyFlow, reached_facts};
