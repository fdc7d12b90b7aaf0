//! The refusals of super types of a wrong kind, of throws clauses, and of a core library that is not as the language says.
#![tactic(auto)]

mod core_library;
mod exceptions;
mod kinds;
mod throws;

pub use core_library::core_refusal;
pub use exceptions::Pair;
pub use kinds::kind_refusal;
pub use throws::{Hierarchy, throws_refusal};
