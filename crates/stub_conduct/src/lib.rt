//! What an honest library does at each call, as its signatures and the run's choices say.
#![tactic(auto)]

mod choice;
mod classes;
mod library;

pub use choice::{Choice, Choices, Conduct};
pub use classes::fits;
pub use library::{conduct, cut};
