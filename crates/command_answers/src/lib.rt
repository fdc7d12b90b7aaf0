//! What a run of the command comes to: its exit status and its text, which is made whole before the first write.
#![tactic(auto)]

mod answers;
mod sending;
mod statuses;
mod texts;

pub use answers::{Answer, Outcome};
pub use sending::send;
pub use statuses::Status;
pub use texts::{placeless, read_fault, refusal};
