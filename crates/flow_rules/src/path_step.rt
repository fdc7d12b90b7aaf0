//! A step of a path of facts.

use java_control::{Action, Edge, Fact};
use rlc_base::Pos;

/// A step of a path through the graph of a body, and what held of the object before it.
#[derive(Clone, Copy)]
pub struct PathStep {
    /// The number of the node at which the step is taken.
    pub node: u32,
    pub pos: Pos,
    pub action: Action,
    pub edge: Edge,
    /// What held before the step; none before the object is born.
    pub fact: Option<Fact>,
}
