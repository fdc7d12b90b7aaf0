//! The typing of statements and of blocks (JLS 14) over their syntax trees: of each its typed tree, how it ends, what is in scope
//! behind it, and all refusals in it.
#![tactic(auto)]

mod simple_statements;
mod statement_typing;

pub use java_statement_scopes::StatementScope;
pub use statement_typing::{statement, statements};
