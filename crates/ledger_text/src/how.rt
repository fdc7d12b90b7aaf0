//! How a run ended.

use program_model::ClassId;
use rlc_base::Pos;

/// How a run came to its end.
#[derive(Clone, Copy, Debug, PartialEq, Eq)]
pub enum How {
    /// No frame is left; `main` ended by an exception of this class, or by none.
    Ended(Option<ClassId>),
    /// The next step throws an ignored exception of this class, from the operation or out of the call at this place, and is
    /// not taken.
    Stray(ClassId, Pos),
    /// The steps are spent.
    Cut,
}
