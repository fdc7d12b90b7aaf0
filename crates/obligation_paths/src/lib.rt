//! Shortest paths to the rules that are broken in a body, and laws that carry paths over the nodes of its graph to paths of
//! controls.
#![tactic(auto)]

mod breaking;

pub use breaking::breaking_path;
