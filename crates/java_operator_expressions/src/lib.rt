//! The typings of literals, of `this`, and of the expressions that are made of operators, in the surroundings of a body, over those
//! of their parts (JLS 15.8, 15.10, 15.15 to 15.25).
#![tactic(auto)]

mod expressions;
mod operators;

pub use expressions::{
    answer_under, binary, cast, conditional, element, instance_of, literal, new_array, this, unary,
};
pub use operators::{operator_of, step_operator_of, unary_operator_of};
