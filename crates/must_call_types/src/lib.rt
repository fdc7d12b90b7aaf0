//! The reading of a program's annotations: its must-call sets with their inheritance, the effective signatures of its methods,
//! and its table of names.
#![tactic(auto)]

mod inheritance;
mod names;
mod reading;

pub use reading::read_signatures;
