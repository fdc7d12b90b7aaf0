//! Where statements stand (JLS 6.3, 11.2, 14.20): what their typing may read, which exceptions a `try` covers, the catch clauses
//! without their blocks, and how many variables statements declare.
#![tactic(auto)]

mod clauses;
mod counts;
mod scope;

pub use clauses::{clause_head, covered_before, covered_within};
pub use counts::number_of_last;
pub use scope::{StatementScope, body_scope, take_number};
