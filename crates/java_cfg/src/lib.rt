//! The control-flow graph of a method body: the controls that its start reaches, and the steps of each.
#![tactic(auto)]

mod arc;
mod build;
mod contents;
mod graph;
mod limits;
mod link;
mod small_actions;

pub use arc::Arc;
pub use build::build_graph;
pub use graph::Graph;
pub use limits::{
    MAX_NODES, MAX_OWNING_FIELDS, MAX_TEMPS, MAX_VARIABLES, method_place, owning_count,
    variable_count,
};
