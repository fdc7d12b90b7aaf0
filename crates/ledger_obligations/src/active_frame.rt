//! The frames of a run.

use ledger_state::Locals;
use program_model::MethodId;

/// A method that runs.
#[derive(Drop)]
pub struct ActiveFrame {
    pub method: MethodId,
    /// What is left of its body to run, by its number in a table of lists.
    pub control: usize,
    pub locals: Locals,
}
