//! Laws of reading, each the contract of a function that does nothing:
//!
//! - Laws of refusals: two codes have two numbers, and of two refusals one comes before the other.
//! - Laws of the cut into tokens: bytes have one cut, or one refusal, and never both.
//! - Laws of settings files: a file says one list of settings, or is refused for one cause, and never both.
//! - The tokens that a file is read from are those that its tree is written with, in their order, and each node has the place of the
//!   token that the rule of places names. Which tokens a tree is written with is defined in `specs`, without the grammar's table and
//!   its actions: how tight each operand binds (JLS 15.7), and to which `if` an `else` belongs (JLS 14.5), is part of it. What leaves
//!   no node is there too: parentheses round an expression, semicolons among members and among classes, the semicolon behind the
//!   last resource of a `try`, the comma behind the last value in braces, and the empty parentheses of an annotation.
//! - What a parser reads are the tokens that its trees are written with, in their order, with the places that the rule of places
//!   names.
//! - Laws of the trees of files: tokens have one tree, or one stop, and never both.
//! - Laws of the files of a program: they have one list of trees, or one first stop, and never both.
//! - Laws of the files of a command: the words and what their files hold have one list of trees, or one first stop, and never both.
#![tactic(auto)]

mod front;
mod parsed_tokens;
mod reading;
mod refusal;
mod settings;
mod token;
mod tree;
mod tree_tokens;

pub use front::{trees_are_one, trees_have_no_stop, trees_stop_is_one};
pub use parsed_tokens::{
    operators_are_listed, parsed_annotations_are_written, parsed_expression_is_written,
    parsed_stub_is_written, parsed_type_is_written, parsed_unit_is_written,
};
pub use reading::{files_stop_is_one, front_has_no_stop, front_is_one};
pub use refusal::{code_is_one, first_refusal_is_one};
pub use settings::{
    cause_is_one, default_settings_are_one, read_settings_have_no_cause, settings_are_one,
};
pub use token::{cut_has_no_stop, stop_is_one, tokens_are_one};
pub use tree::{
    deep_stop_is_one, sections_are_one, sections_have_no_stop, unit_has_no_stop, unit_is_one,
    wrong_is_not_deep, wrong_stop_is_one,
};
pub use tree_tokens::{
    annotations_are_written, expression_is_written, stub_is_written, type_is_written,
    unit_is_written,
};
