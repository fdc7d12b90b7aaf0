//! The refusals of the members of classes: types that are none, and double members.
#![tactic(auto)]

mod keys;
mod members;
mod types;

pub use keys::MemberKey;
pub use members::double_member_refusal;
pub use types::{check_types, type_refusal};
