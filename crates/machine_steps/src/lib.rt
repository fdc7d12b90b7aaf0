//! Steps within a frame of a run, as drafts; where none is known the step is done on the whole heap.
#![tactic(auto)]

mod inner_run;
mod stores;

pub use inner_run::run_inner;
