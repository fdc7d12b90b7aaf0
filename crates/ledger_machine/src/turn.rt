//! What a step of the machine comes to.

use program_model::ClassId;
use rlc_base::Pos;

/// Whether the machine took a step, and why not.
#[derive(Clone, Copy, Debug, PartialEq, Eq)]
pub enum Turn {
    Went,
    /// No frame is left; `main` ended by an exception of this class, or by none.
    Ended(Option<ClassId>),
    /// The next step throws an ignored exception of this class, at this place.
    Stray(ClassId, Pos),
}
