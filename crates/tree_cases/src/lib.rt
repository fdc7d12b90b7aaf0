//! Cases of tokens and trees: texts in Java, and their tokens, trees or refusals, compared in words with those that a case wants.
//! `docs/CASES.md` says how they are written; `crates/case_runner/data/trees` has them.
#![tactic(auto)]

mod answers;
mod classes;
mod rows;
mod runs;
mod texts;
mod trees;

pub use runs::run_file;
