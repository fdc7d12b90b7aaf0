//! Methods and constructors of source files that have a body where they may not, or none where they must.
#![tactic(auto)]

mod bodies;

pub use bodies::body_refusal;
