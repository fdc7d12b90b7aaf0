//! The operations of the language (JLS 15): what the places of a frame hold, what an operation throws of itself, the value that it
//! gives, and what it does to arrays and static fields.
#![tactic(auto)]

mod choices;
mod exceptions;
mod places;
mod results;
mod stores;

pub use choices::{next_choice, one_more_used};
pub use exceptions::{operand, thrown_by_operation};
pub use places::place_value;
pub use results::made_value;
pub use stores::{array_made, static_of, store_into_array, used_after};
