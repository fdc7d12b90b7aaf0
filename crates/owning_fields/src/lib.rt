//! What a store into an owning field of `this` makes of what is known of an object, and which owning fields are refused.
#![tactic(auto)]

mod assigned;
mod finalized;
mod owning_rule_cases;
mod stores;
mod unseen_resets;

pub use owning_rule_cases::owning_rule;
pub use stores::field_step;
