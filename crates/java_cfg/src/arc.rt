//! The arcs of a graph.

use java_control::{Action, Edge};
use rlc_base::Pos;

/// A step of a node: what it does, the way that it goes, the node to which it leads, by its number, and its place.
#[derive(Clone, Copy)]
pub struct Arc {
    pub action: Action,
    pub edge: Edge,
    pub to: u32,
    pub pos: Pos,
}
