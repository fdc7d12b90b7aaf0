//! The graph of a method's body in words: how many nodes and arcs it has, and each arc in a line; or the code of the refusal, and its
//! place. A class has its last name, a constructor the word `new` and its class, a variable its name, and a statement its place.
#![tactic(auto)]

mod actions;
mod arcs;
mod completions;
mod graphs;
mod methods;
mod names;
mod operators;
mod places;
mod values;

pub use graphs::{graph_answer, refusal_text};
pub use methods::body_named;
