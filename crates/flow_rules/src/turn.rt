//! What a step makes of a fact but for its places.

use java_control::{Fact, Outcome};

/// A fact as a step turns it.
#[derive(Clone, Copy)]
pub(crate) enum Turn {
    /// As it was, at the same places.
    Unchanged,
    /// As it is from now on, at the places that the step leaves it.
    Leaves(Fact),
    /// Its outcome is decided.
    Decided(Outcome),
}
