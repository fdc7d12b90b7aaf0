//! Faults.

use control_actions::{Origin, Rule};
use rlc_base::{NameSet, Pos};

/// A rule that some path through a body breaks at a place, for the objects of an origin.
#[derive(Clone, Copy)]
pub struct FaultAt {
    pub rule: Rule,
    pub at: Pos,
    pub origin: Origin,
    /// All names that are missing on some path that breaks the rule there.
    pub missing: NameSet,
}
