//! The parts of statements that are no statements (JLS 14): their expressions, declarations of local variables, the first part of
//! `for`, and resources.
#![tactic(auto)]

mod declarations;
mod heads;
mod resources;
mod values;

pub use declarations::declaration;
pub use heads::for_start;
pub use resources::try_resources;
pub use values::{
    push_condition, push_expression, push_expressions, push_optional, push_returned, push_thrown,
};
