//! The machine: one run of a program, with the ledger of who owns which object and what was called on it.
#![tactic(auto)]

mod ending;
mod machine;
mod run;
mod turn;

pub use machine::Machine;
pub use run::start_machine;
pub use turn::Turn;
