//! The visits of a search through a graph whose nodes are reached with no fact, or with facts that stand in a region of a
//! pool: each visit once, in the order in which the search comes to them, with the step by which it came first.
#![tactic(auto)]

mod handles;
mod lists;
mod trails;
mod visit;

pub use lists::{MAX_PAIRS, Visits};
pub use visit::{Point, Source, Visit};
