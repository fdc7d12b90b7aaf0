//! What the typings of expressions share: where an expression stands, what its typing gives, the classes and types that are
//! written there, which arguments a method takes, and the parts of the typed trees of calls (JLS 6.5.5, 15.9, 15.12, 15.25.3).
#![tactic(auto)]

mod arguments;
mod call_parts;
mod contexts;
mod surroundings;
mod typing;
mod written_types;

pub use arguments::{applicable_to, have_types};
pub use call_parts::{argument_trees, trees_for, with_first, with_implied_this};
pub use surroundings::BodyScope;
pub use typing::{
    ExpressionTyping, into_parts, needed_value, one, operand, settle_in, shape_in, three, two,
};
pub use written_types::{cast_type, class_of_name, count_unknown, element_type, tested_type};
