//! The modes of the command that apply the flow rules: a check of files, certificates and their check, and the counts of a generated
//! program.
#![tactic(auto)]

mod certifying;
mod checks;
mod faults;
mod generated;
mod verifying;

pub use certifying::certify_answer;
pub use checks::check_answer;
pub use generated::generated_answer;
pub use verifying::verify_answer;
