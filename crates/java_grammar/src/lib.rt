//! The reader of the grammar's table: what derives a list of tokens, or where the tokens are wrong.
#![tactic(auto)]

mod choices;
mod conditions;
mod fronts;
mod lookahead;
mod machine;
mod starts;

pub use fronts::derive_front;
pub use machine::{DeriveFail, derive};
