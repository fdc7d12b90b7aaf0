//! What each action of the grammar's table at a token, of an expression and of an annotation does: it takes values off the stack
//! and leaves what it makes of them.
#![tactic(auto)]

mod annotation_actions;
mod expression_actions;
mod token_actions;

pub use annotation_actions::perform_annotation_action;
pub use expression_actions::perform_expression_action;
pub use token_actions::perform_token_action;
