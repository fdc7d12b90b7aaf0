//! Reading the files that a command names, or the answer where they can't be read.
#![tactic(auto)]

mod names;
mod reading;
mod stops;

pub use names::reading_list;
pub use reading::{ReadOutcome, read_inputs};
pub use stops::too_many;
