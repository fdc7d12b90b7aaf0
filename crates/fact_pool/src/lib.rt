//! The facts of the bodies that are being checked. The facts of one body stand once each, in a region of their own that
//! is given up when the body is done, and a small handle stands for a fact until then.
#![tactic(auto)]

mod handle;
mod pool;

pub use handle::{Handle, Region};
pub use pool::Pool;
