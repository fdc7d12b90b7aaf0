//! The rules of literals and of the expressions that are made of operators, by the facts of their parts (JLS 15): which type
//! each has, and its value where it is constant; or that it has none, and is refused at its place.
#![tactic(auto)]

mod arrays;
mod casts;
mod conditionals;
mod literals;
mod operators;

pub use arrays::{element_by, length_at, new_array_by};
pub use casts::{cast_by, instance_of_by};
pub use conditionals::conditional_by;
pub use literals::{literal_by, literal_in, literal_under_minus_by};
pub use operators::{binary_by, operator_assignment_by, postfix_step_by, prefix_step_by, unary_by};
