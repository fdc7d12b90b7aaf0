//! The top call of the leak checker: words and files in, a status and a text out.
#![tactic(auto)]

mod requests;
mod top;

pub use command_answers::Status;
pub use top::rlc;
