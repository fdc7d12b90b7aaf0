//! What a call that creates an obligation anew does to what is known of its target.

use control_actions::Rule;

/// What a call's reset makes of a fact.
#[derive(Clone, Copy, PartialEq, Eq)]
pub enum ResetMove {
    /// The object is not the reset's target.
    Untouched,
    /// Nothing counts as called any more, and all that the object's class asks for must be called.
    Emptied,
    /// The rule is broken.
    Bad(Rule),
}
