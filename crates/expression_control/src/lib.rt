//! What conditions and expressions become in the control relation, over the table of lists.
#![tactic(auto)]

mod conditions;
mod expressions;
mod operands;
mod places;

pub use conditions::condition_list;
pub use expressions::{expression_list, type_or_null};
pub use operands::{applied, deeper, end_of};
pub use places::{expression_place, nowhere, place_of, statement_place};
