//! The rules that the paths through a body break: for each origin, rule and place once, with all names that are missing on
//! some such path, and with the first visit of a search from which a step breaks the rule.
#![tactic(auto)]

mod breach;
mod breaches;

pub use breach::{Breach, Breached};
pub use breaches::body_breaches;
