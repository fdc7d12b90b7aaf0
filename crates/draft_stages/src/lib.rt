//! The stages that steps are made of, each with its lines of the ledger: only the objects that a stage changes are looked at.
#![tactic(auto)]

mod aliases;
mod arguments;
mod held;
mod leaving;
mod resets;
mod rows;

pub use arguments::draft_arguments;
pub use held::held_roots;
pub use leaving::{candidates, draft_end};
pub use resets::{draft_reset, draft_reset_roots};
pub use rows::changes_after;
