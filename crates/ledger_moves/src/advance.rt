//! What comes next.

use java_control::{Action, Completion, Triple};
use program_model::{ClassId, MethodId};
use rlc_base::Pos;
use stub_conduct::Conduct;

/// What the top frame does next.
#[derive(Clone, Copy)]
pub enum Advance {
    /// A step within the frame, which throws an exception of this class, or none.
    Inner(Option<ClassId>, Triple),
    /// A call that names the first method, of the program, and begins the second one.
    Start(MethodId, MethodId, Action, Pos),
    /// A call that names the first method, and of which the library does this, by the signature of the second one.
    Library(MethodId, MethodId, Conduct, Triple),
    /// The frame ends.
    End(Pos, Completion),
    /// The step throws an ignored exception of this class, at this place.
    Stray(ClassId, Pos),
    /// The values choose no step; no valid program comes there.
    Rest,
}

/// How a frame's end goes on in its caller.
#[derive(Clone, Copy)]
pub enum CallEnd {
    /// The call, which names this method, ends by an exception of this class or by none, and the caller takes this step.
    Back(Option<ClassId>, MethodId, Triple),
    /// The exception is ignored, and leaves the call at this place.
    Stray(ClassId, Pos),
    /// The caller stands at no call; no run comes there.
    NoWay,
}
