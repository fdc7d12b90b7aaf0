//! The values of the stack on which the actions of the grammar work, their kinds, and what takes them off it and leaves them there; trees with their
//! levels, lists of them, trees that wait for a part, and the refusal of what would be too deep.
#![tactic(auto)]

mod leaves;
mod levels;
mod lists;
mod pops;
mod trees;
mod values;

pub use leaves::{
    leave_annotation_value, leave_expression, leave_member, leave_modifier, leave_statement,
};
pub use levels::{BuildFail, boxed, deeper, place_of};
pub use lists::{added, appended, none, put, take};
pub use pops::{
    leave, pop_annotation, pop_annotation_value, pop_annotation_values, pop_annotations,
    pop_arguments, pop_block, pop_call, pop_catches, pop_constructor_body, pop_expression,
    pop_expressions, pop_for_start, pop_identifiers, pop_imports, pop_local, pop_members,
    pop_modifiers, pop_name, pop_names, pop_operations, pop_optional_expression, pop_optional_name,
    pop_optional_type, pop_parameters, pop_parenthesized, pop_place, pop_resources, pop_statement,
    pop_statements, pop_super_call, pop_token, pop_typ, pop_types, pop_unit, pop_units,
    pop_variables,
};
pub use trees::{Identifiers, Lexeme, Nested, OpenOperation, Parenthesized};
pub use values::{Parameters, Place, Value};
