//! The pairs of a certificate.

use control_actions::Fact;

/// A fact at a node of a body's graph. The number of its origin stands beside it; in the fact itself that number is 0.
#[derive(Clone, Copy, PartialEq, Eq, Hash)]
pub struct Pair {
    /// The number of the node.
    pub node: usize,
    /// The number of the fact's origin in the body's list of origins.
    pub origin: usize,
    pub fact: Fact,
}
