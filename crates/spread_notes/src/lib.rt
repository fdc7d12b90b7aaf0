//! Notes of calls that go on to other objects: through links, and by the promises that the library keeps. What they change are the few
//! objects that they reach, so that no other object is looked at.
#![tactic(auto)]

mod changed;
mod contents;
mod follows;
mod numbered;
mod promises;
mod spreading;

pub use changed::{NotedObjects, noted_objects, put_each};
pub use numbered::Numbered;
