//! Whether the path of a report is one of the body's paths to its fault.
#![tactic(auto)]

mod path;
mod rows;
mod steps;

pub use path::{is_fault_path, is_path};
