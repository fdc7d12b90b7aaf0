//! Which types convert to which (JLS 5), and the types that operators and conditional expressions take and give (JLS 15),
//! over the types of the subset: no boxing, no generics, arrays of one dimension.
#![tactic(auto)]

mod casts;
mod conditionals;
mod operators;
mod types;
mod widening;

pub use casts::{Cast, cast_of, is_comparable, is_tested};
pub use conditionals::{is_reference_conditional, least_upper_bound, standalone_conditional};
pub use operators::{
    binary_promoted, binary_result, compound_operands, operands_of, promoted, step_operands,
    unary_result,
};
pub use types::{
    class_of, element_type, is_boolean, is_index, is_numeric, is_reference, is_throwable,
    type_of_class,
};
pub use widening::{fits, is_assignable, narrows, widens};
