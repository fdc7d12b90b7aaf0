use java_syntax::{Expr, InfixOperator, Name, Typ, Word};
use rlc_base::{Pos, Text};

/// A token with its own copy of its bytes.
#[derive(Drop)]
pub struct Lexeme {
    /// Its class.
    pub word: Word,
    /// Its bytes.
    pub text: Text,
    /// Its place.
    pub pos: Pos,
}

/// A tree, or several, with its levels.
#[derive(Drop)]
pub struct Nested<T> {
    /// The tree.
    pub tree: T,
    /// How many levels the deepest of its expressions, statements and annotations has, parentheses counted; 0 where there is
    /// none. At most 128.
    pub depth: u32,
}

/// An operator (JLS 15.17 to 15.24) with its left operand, whose right operand isn't read yet.
#[derive(Drop)]
pub struct OpenOperation {
    /// The left operand.
    pub left: Nested<Expr>,
    /// The operator.
    pub operator: InfixOperator,
    /// The operator's place.
    pub pos: Pos,
}

/// Identifiers that dots join (JLS 6.2).
#[derive(Drop)]
pub struct Identifiers {
    /// The first.
    pub first: Name,
    /// Those behind it, in their order.
    pub more: Vec<Name>,
}

/// What stands in parentheses.
#[derive(Drop)]
pub enum Parenthesized {
    /// Identifiers that dots join: a type, or an expression.
    Names(Identifiers),
    /// An array type.
    Array(Typ),
    /// Any other expression.
    Expression(Nested<Expr>),
}
