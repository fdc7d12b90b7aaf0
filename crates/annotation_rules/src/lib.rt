//! Which annotations of a program, and which names of its must-call sets, are refused.
#![tactic(auto)]

mod body_cases;
mod cases;
mod declaration;
mod rule;

pub use declaration::{Declaration, declaration_refusal};
pub use rule::annotation_rule;
