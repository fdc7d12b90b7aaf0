//! Programs made from a number, by which the speed and the answers of a check are measured.
#![tactic(auto)]

mod generation;

pub use generation::generate;
