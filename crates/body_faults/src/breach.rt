//! Rules that are broken.

use control_actions::Rule;
use rlc_base::{NameSet, Pos};

/// A rule that is broken at a place, for the objects of an origin.
#[derive(Clone, Copy, PartialEq, Eq, Hash)]
pub struct Breach {
    /// The number of the origin in the body's list of origins.
    pub origin: u32,
    pub rule: Rule,
    pub at: Pos,
}

/// By what a rule is broken.
#[derive(Clone, Copy)]
pub struct Breached {
    /// All names that are missing in some step that breaks the rule.
    pub missing: NameSet,
    /// The place, in the list of visits, of the first visit from which a step breaks the rule.
    pub visit: usize,
    /// The place of the arc of that step among those of the visit's node.
    pub arc: usize,
}
