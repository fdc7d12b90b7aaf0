//! Steps of a run that begin and end calls, as drafts; where none is known the step is done on the whole heap.
#![tactic(auto)]

mod library;
mod returning;
mod starting;

pub use library::run_library;
pub use returning::{run_call_end, run_main_end, run_return};
pub use starting::run_start;
