//! Whether an obligation moves.

use control_actions::Rule;

/// What a call or a `return` makes of an obligation.
#[derive(Clone, Copy, PartialEq, Eq)]
pub enum Moved {
    /// It is where it was.
    Stays,
    /// It is another's from now on.
    Moves,
    /// The rule is broken.
    Bad(Rule),
}
