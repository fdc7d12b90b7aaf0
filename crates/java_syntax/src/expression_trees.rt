use crate::names::{Name, Typ};
use crate::operators::{InfixOperator, PrefixOperator, StepOperator};
use rlc_base::{Pos, Text};

/// An expression (JLS 15). Parentheses leave no node. The place of a call is that of the method's name, of a field access that
/// of the field's name, of a binary, assignment or postfix expression that of its operator, of a conditional that of `?`, of an
/// index that of `[`, and of every other that of its first token.
#[derive(Drop)]
pub enum Expr {
    /// A number, character, string, `true`, `false` or `null`, as it is written (JLS 3.10).
    Literal {
        text: Text,
        pos: Pos,
    },
    /// An identifier alone.
    Identifier {
        name: Text,
        pos: Pos,
    },
    /// `this`.
    This {
        pos: Pos,
    },
    /// `m(..)`: a call without a written target (JLS 15.12).
    Call {
        name: Text,
        arguments: Vec<Expr>,
        pos: Pos,
    },
    /// `super.m(..)`.
    SuperCall {
        name: Text,
        arguments: Vec<Expr>,
        pos: Pos,
    },
    /// `e.m(..)`.
    MethodCall {
        target: Box<Expr>,
        name: Text,
        arguments: Vec<Expr>,
        pos: Pos,
    },
    /// `e.f` (JLS 15.11).
    FieldAccess {
        target: Box<Expr>,
        name: Text,
        pos: Pos,
    },
    /// `a[i]` (JLS 15.10.3).
    Index {
        array: Box<Expr>,
        index: Box<Expr>,
        pos: Pos,
    },
    /// `new C(..)` (JLS 15.9).
    NewObject {
        class: Name,
        arguments: Vec<Expr>,
        pos: Pos,
    },
    /// `new T[n]` (JLS 15.10.1). `element` has no brackets.
    NewArray {
        element: Typ,
        length: Box<Expr>,
        pos: Pos,
    },
    /// `+e`, `-e`, `!e` or `~e` (JLS 15.15).
    Prefix {
        operator: PrefixOperator,
        operand: Box<Expr>,
        pos: Pos,
    },
    /// `++e` or `--e` (JLS 15.15.1).
    PrefixStep {
        operator: StepOperator,
        operand: Box<Expr>,
        pos: Pos,
    },
    /// `e++` or `e--` (JLS 15.14).
    PostfixStep {
        operator: StepOperator,
        operand: Box<Expr>,
        pos: Pos,
    },
    /// `(T) e` (JLS 15.16).
    Cast {
        typ: Typ,
        operand: Box<Expr>,
        pos: Pos,
    },
    /// `a op b` (JLS 15.17 to 15.24).
    Infix {
        operator: InfixOperator,
        left: Box<Expr>,
        right: Box<Expr>,
        pos: Pos,
    },
    /// `e instanceof T` (JLS 15.20.2).
    InstanceOf {
        operand: Box<Expr>,
        typ: Typ,
        pos: Pos,
    },
    /// `c ? a : b` (JLS 15.25).
    Conditional {
        condition: Box<Expr>,
        when_true: Box<Expr>,
        when_false: Box<Expr>,
        pos: Pos,
    },
    /// `a = b` (JLS 15.26.1).
    Assignment {
        left: Box<Expr>,
        right: Box<Expr>,
        pos: Pos,
    },
    /// `a op= b` (JLS 15.26.2).
    CompoundAssignment {
        operator: InfixOperator,
        left: Box<Expr>,
        right: Box<Expr>,
        pos: Pos,
    },
}
