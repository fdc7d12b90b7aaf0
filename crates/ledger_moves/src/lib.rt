//! What the top frame of a run does next, and how the end of a frame goes on in its caller: by the control relation and the values of
//! the frame.
#![tactic(auto)]

mod advance;
mod calls;
mod ending;
mod frames;
mod standing;
mod steps;

pub use advance::{Advance, CallEnd};
pub use ending::call_end;
pub use frames::{begin, frame_steps};
pub use standing::{FirstAction, first_action};
pub use steps::frame_move;
