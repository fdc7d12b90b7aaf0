//! The nodes of trees, each with its levels: of expressions, from their parts, from names, and from operators by how tight they bind; of statements,
//! annotations and files, and their parts.
#![tactic(auto)]

mod annotation_parts;
mod names;
mod nodes;
mod operations;
mod operators;
mod statement_parts;

pub use annotation_parts::{
    annotation, annotation_as_value, argument, expression_value, modifier, place_of_annotation,
    values_as_value, word,
};
pub use names::{
    extended, head, name_at, name_expression, named_call, primitive_at, selector, type_named,
    type_of, with_identifier,
};
pub use nodes::{
    assignment, cast, compound, conditional, index, instance, literal, new_array, new_object,
    parenthesized, postfix_step, prefix, prefix_step, super_call, this,
};
pub use operations::{COMPARISON, Closed, LOOSEST, close_operations, level_of, with_operator};
pub use operators::{compound_operator, infix_operator, prefix_operator, step_operator};
pub use statement_parts::{
    block, block_statement, catch_clause, do_statement, for_statement, if_else_statement,
    if_statement, initialized, local, plain_variable, resource, statement, try_finally_statement,
    try_statement, unit, while_statement,
};
