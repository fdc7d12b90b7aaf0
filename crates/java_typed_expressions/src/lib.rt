//! The typing of expressions (JLS 15): of each what it gives and its typed tree, and all refusals in it.
#![tactic(auto)]

mod expressions;
mod laws;
mod targets;

pub use expressions::{arguments, expression, value};
pub use java_call_rules::{BodyScope, one, operand, settle_in, two};
pub use laws::{accepted_is_well_formed, accepted_value_has_type};
