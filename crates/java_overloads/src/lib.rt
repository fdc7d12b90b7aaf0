//! Overload resolution (JLS 15.12.2): which of several methods or constructors a call means. Every invocation is strict, as
//! the subset has neither boxing nor variable arity.
#![tactic(auto)]

mod applicable;
mod choices;
mod specific;

pub use choices::{Choice, choice_among, choose};
