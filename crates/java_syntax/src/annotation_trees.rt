use crate::expression_trees::Expr;
use crate::names::Name;
use rlc_base::Pos;

/// An annotation (JLS 9.7).
#[cycle(annotations)]
#[derive(Drop)]
pub struct Anno {
    /// The name behind `@`.
    pub name: Name,
    /// What stands in its parentheses, in order.
    pub arguments: Vec<AnnoArgument>,
    /// The place of its `@`.
    pub pos: Pos,
}

/// An argument of an annotation.
#[cycle(annotations)]
#[derive(Drop)]
pub struct AnnoArgument {
    /// The name before `=`, where one is written.
    pub key: Option<Name>,
    /// The value.
    pub value: AnnoValue,
}

/// A value in an annotation (JLS 9.7.1).
#[cycle(annotations)]
#[derive(Drop)]
pub enum AnnoValue {
    /// An expression.
    Expression(Expr),
    /// An annotation.
    Annotation(Anno),
    /// The values in braces, in order, with the place of `{`.
    List { values: Vec<AnnoValue>, pos: Pos },
}

/// What may stand before a declaration (JLS 8.1.1, 8.3.1, 8.4.3, 8.8.3).
#[derive(Drop)]
pub enum Modifier {
    /// An annotation.
    Annotation(Anno),
    /// `public`.
    Public,
    /// `protected`.
    Protected,
    /// `private`.
    Private,
    /// `static`.
    Static,
    /// `final`.
    Final,
    /// `abstract`.
    Abstract,
}
