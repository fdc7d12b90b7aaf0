//! The trees of expressions, types and annotations, from their text; and the meaning of the grammar: what the steps of a derivation leave on the
//! stack of values.
#![tactic(auto)]

mod evaluation;
mod front_trees;
mod laws;
mod parsing;

pub use evaluation::{evaluate, no_annotations};
pub use laws::kinds_fit;
pub use parsing::{parse_annos, parse_expr, parse_type};
