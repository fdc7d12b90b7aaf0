//! What stands in the frames of a run of an accepted program:
//!
//! - In each frame of a run of an accepted program, the running one and those that wait, a call on `this` finds `this` in its temp.
//! - How a frame goes on to track an object over one step, and how births begin to.
//! - What the machine does next in a frame of an accepted program of the plain forms, and how a frame goes on when its call has ended.
//! - What the parameters hold of which signatures speak, while a body runs: the operands of the call at which the frame below waits.
//! - Each object that is held somewhere in a run is there.
#![tactic(auto)]

mod arguments;
mod frames;
mod runs;

pub use arguments::{arguments_at_start, arguments_step};
pub use frames::{target_is_there, target_is_this, targets_at_start, targets_step};
pub use runs::{ranges_at_start, ranges_step};
