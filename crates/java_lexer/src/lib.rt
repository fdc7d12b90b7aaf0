//! The tokens of Java source text: the one cut of a file's bytes by the longest match (JLS chapter 3), or why there is none; and the one list of
//! the texts of reserved words, separators and operators (JLS 3.9, 3.11, 3.12), each with its class in the grammar and what it means.
#![tactic(auto)]

mod characters;
mod classes;
mod fronts;
mod lexer;
mod literals;
mod meanings;
mod places;
mod sources;
mod token;
mod words;

pub use lexer::lex;
pub use meanings::Meaning;
pub use places::place_behind;
pub use sources::{Source, end_place};
pub use token::TokenKind;
pub use words::{
    is_left_out, is_reserved, is_value, operator_class, operator_len, operator_meaning,
    reserved_word_class, reserved_word_meaning, separator_class, separator_len,
};
