//! The faults of a whole program, body by body, and the text of their reports.
#![tactic(auto)]

mod body;
mod program;

pub use body::MAX_FAULTS;
pub use program::{ProgramFaults, check_program};
