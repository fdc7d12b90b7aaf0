//! The rules on signatures that speak of overriding methods: resource aliases, ownership with promises, and resets.
#![tactic(auto)]

mod bad_overrides;
mod rule;
mod walk;

pub use rule::OverrideRule;
pub use walk::least_override;
