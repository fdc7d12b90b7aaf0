//! The numbers of the files that a command names: file 0 is the core stub, then come the stub files and the Java sources.
#![tactic(auto)]

mod numbering;

pub use numbering::{files_of_kind, is_stub};
