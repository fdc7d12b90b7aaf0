//! Steps within a frame, stores into owning fields among them, of which only the objects that they change are looked at.
#![tactic(auto)]

mod deciding;
mod inner;
mod operations;
mod stages;
mod stores;

pub use inner::draft_inner;
