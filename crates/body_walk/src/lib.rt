//! The walk of the facts of a body: its origins, and what paths reach in its graph.
#![tactic(auto)]

mod walking;

pub use walking::{Walk, walk_body};
