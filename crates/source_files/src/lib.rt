//! Reading the files that a command names, in their order, within the limits on text.
#![tactic(auto)]

mod reading;
mod stops;

pub use reading::{MAX_TEXT, read_all};
pub use stops::ReadingStop;
