//! Which places hold an object after a step, and which resource aliases are refused.
#![tactic(auto)]

mod alias_classes;
mod alias_methods;
mod alias_refusals;
mod aliases;
mod passed_over;
mod place_rows;

pub use alias_refusals::alias_rule;
pub use place_rows::place_step;
