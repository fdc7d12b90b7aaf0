//! The annotations of a typed program, and the rules on its signatures; or the first refusal in this order.
#![tactic(auto)]

mod signing;

pub use signing::signed;
