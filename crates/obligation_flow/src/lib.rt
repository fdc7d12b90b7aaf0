//! The obligations of a body: what paths through it reach, its faults, and a shortest path to each.
#![tactic(auto)]

mod faults;
mod trace;

pub use fault_order::FaultAt;
pub use faults::TracedFault;
pub use trace::{Trace, check_into};
