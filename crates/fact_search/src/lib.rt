//! A search, first in, first out, through what is known at the nodes of a graph: nothing yet, or a fact. It visits what some
//! walk reaches, each once and first by a walk of the fewest steps.
#![tactic(auto)]

mod transitions;
mod visiting;

pub use transitions::Transitions;
pub use visiting::search;
