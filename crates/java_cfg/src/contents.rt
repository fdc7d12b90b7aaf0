//! What is read of a graph.

ghost use Rattle.std.specs.Prelude.{◌≡◌, ◌<◌, length, Some, slice_get};
ghost use Rattle.java_cfg.specs.Contents.{arcs_of, nodes_of};

use crate::arc::Arc;
use crate::graph::Graph;

impl Graph {
    /// The number of nodes.
    #[tactic(auto, unfolding(crate::specs::Contents::nodes_of))]
    pub fn nodes(&self) -> u32
        ensures { result ≡ length (nodes_of self.now) }
    {
        self.rows.len() as u32
    }

    /// The arcs of a node, in the order of the steps of its control.
    #[tactic(auto, unfolding(crate::specs::Contents::nodes_of, crate::specs::Contents::arcs_of))]
    pub fn arcs(&self, node: u32) -> &[Arc]
        requires { node < length (nodes_of self.now) }
        ensures { slice_get (arcs_of self.now) node ≡ Some result.now }
    {
        self.rows[node as usize].as_slice()
    }
}
