//! Which method an object of a class runs, and the refusals of a class's overriding methods and of its methods without a
//! body.
#![tactic(auto)]

mod alike;
mod carried;
mod cases;
mod lacking;
mod overriding;
mod runs;

pub use alike::{are_alike, is_alike};
pub use cases::{class_cases, override_cases};
pub use class_members::is_library;
pub use lacking::body_case;
pub use overriding::may_override;
pub use runs::method_run;
