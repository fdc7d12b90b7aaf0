//! Calls of the library, of which only the objects that they change are looked at.
#![tactic(auto)]

mod library;

pub use library::{LibraryCall, draft_library};
