//! What each action of the grammar's table of a statement and of a declaration does: it takes values off the stack and leaves
//! what it makes of them.
#![tactic(auto)]

mod declaration_actions;
mod statement_actions;

pub use declaration_actions::perform_declaration_action;
pub use statement_actions::perform_statement_action;
