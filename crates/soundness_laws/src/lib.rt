//! What is safe in every run:
//!
//! - What the checker accepts is safe in every run: with calls of the library and of the program itself, owning fields,
//!   constructors, methods that promise what they call on owning fields, parameters and `this`, and methods that return their aliased
//!   argument.
//! - What safety says of the answer of a run.
#![tactic(auto)]

mod laws;
mod soundness;

pub use laws::{accepted_run_leaks_nothing, safe_answer_leaks_nothing, safe_run_leaks_nothing};
pub use soundness::{
    accepted_has_plain_forms, accepted_is_safe, agree_is_safe, agree_step, holds_at_start,
    holds_step,
};
