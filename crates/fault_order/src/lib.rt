//! Faults of a body and their order: by place, then by rule, and then by the place and the kind of the origin.
#![tactic(auto)]

mod fault;
mod order;

pub use fault::FaultAt;
pub use order::compare_faults;
