//! What holds of the typed trees in which nothing is refused:
//!
//! - Each expression of a typed body has the type that its parts give it (JLS 15), where the rules of expressions typed it.
//! - What holds of the typed trees of statements in which nothing is refused (JLS 14).
//! - Each statement of a typed body is typed (JLS 14), where the rules of statements refused nothing.
//! - What holds of the typed trees of bodies in which nothing is refused (JLS 8.4.7, 8.8.7).
#![tactic(auto)]

mod body;
mod java_statement;
mod java_statement_typing;
mod java_typing;

pub use body::accepted_body_is_well_formed;
pub use java_statement::{accepted_statements_are_well_formed, valid_program_has_catch_types};
pub use java_statement_typing::{
    accepted_statements_are_typed, accepted_variables_are_declarable, laid_body_is_typed,
    typed_program_has_typed_members,
};
pub use java_typing::{
    arguments_are_passed, laid_arguments_fit, laid_expressions_are_typed, laid_type_is_kept,
    typing_gives_its_type, typing_is_typed,
};
