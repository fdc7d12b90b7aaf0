//! Cases of graphs: the graphs of methods in Java, compared in words with those that a case wants. `crates/case_runner/data/graphs` has
//! the cases, and says how they are written.
#![tactic(auto)]

mod answers;
mod programs;
mod runs;

pub use runs::run_file;
