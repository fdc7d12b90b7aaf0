//! Lays typed trees into the flat tables of a body.
#![tactic(auto)]

mod bodies;
mod expressions;
mod kinds;
mod statement_kinds;
mod statements;

pub use bodies::lay_body;
pub use expressions::{lay_expression, lay_expressions};
pub use kinds::kind_of;
pub use statement_kinds::statement_kind;
pub use statements::{lay_statement, lay_statements};
