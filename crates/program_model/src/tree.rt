//! Typed bodies. A body keeps its statements and expressions in two tables and names them by number. Each node has one
//! parent, and a child's number is below that of its parent.

use crate::kinds::{
    BinaryOperator, ClassId, ExprId, FieldId, Literal, MethodId, OperandType, StmtId,
    UnaryOperator, VType,
};
use crate::program::RawAnno;
use rlc_base::{Pos, Text};

/// The body of a method or constructor.
#[derive(Drop)]
pub struct Body {
    pub method: MethodId,
    /// The parameters first, in their order, then locals, resources and catch variables in textual order.
    pub vars: Vec<Var>,
    /// The statements of the body itself, in textual order. In a constructor they begin with its super call, where it
    /// makes one, and the field initialisers.
    pub stmts: Vec<StmtId>,
    /// The place of the closing brace, and that of the constructor where none is written.
    pub end: Pos,
    /// All statements.
    pub statements: Vec<TStmt>,
    /// All expressions.
    pub expressions: Vec<TExpr>,
}

/// A parameter, local, resource or catch variable.
#[derive(Drop)]
pub struct Var {
    pub name: Text,
    pub vtype: VType,
    pub annos: Vec<RawAnno>,
    /// The place of the declared name.
    pub pos: Pos,
}

/// A typed statement.
#[derive(Drop)]
pub struct TStmt {
    pub kind: StatementKind,
    /// The place of its first token. An implied super call has that of its constructor, a field initialiser that of the
    /// field's declared name.
    pub pos: Pos,
}

/// What a statement is (JLS 14, 8.8.7.1, 8.3.2).
#[derive(Drop)]
pub enum StatementKind {
    /// The statements, and the place of the closing brace.
    Block(Vec<StmtId>, Pos),
    Empty,
    LocalDeclaration(Vec<Declarator>),
    Expression(ExprId),
    /// The condition, and what runs where it is true and where it is false.
    If(ExprId, StmtId, Option<StmtId>),
    /// The condition and the body.
    While(ExprId, StmtId),
    /// The body and the condition.
    Do(StmtId, ExprId),
    For(ForLoop),
    Return(Option<ExprId>),
    Throw(ExprId),
    Break,
    Continue,
    Try(TryStatement),
    SuperCall(SuperCall),
    /// The initialiser of an instance field, as the assignment `this.f = e`. The assignment and the field access in it
    /// have the place of the field's declared name, and so has the implied `this`.
    FieldInitializer(ExprId),
}

/// A part of a statement, as the text shows it: a variable that it declares, by its number in the body's list of variables,
/// or a statement in it.
#[derive(Clone, Copy)]
pub enum TextPart {
    Variable(u32),
    Statement(StmtId),
}

/// One declared name of a local declaration.
#[derive(Clone, Copy)]
pub struct Declarator {
    /// Its number in the body's list of variables.
    pub variable: u32,
    pub initializer: Option<ExprId>,
    /// The place of the declared name.
    pub pos: Pos,
}

/// The basic `for` statement (JLS 14.14.1).
#[derive(Drop)]
pub struct ForLoop {
    pub initial: ForInitial,
    /// An absent condition is true.
    pub condition: Option<ExprId>,
    pub updates: Vec<ExprId>,
    pub body: StmtId,
}

/// The first part of a `for` statement.
#[derive(Drop)]
pub enum ForInitial {
    Declaration(Vec<Declarator>),
    /// Maybe none.
    Expressions(Vec<ExprId>),
}

/// A `try` statement (JLS 14.20), with resources, catch clauses, a `finally` block, or several of these.
#[derive(Drop)]
pub struct TryStatement {
    pub resources: Vec<Resource>,
    pub block: StmtId,
    pub catches: Vec<CatchClause>,
    pub finally: Option<StmtId>,
}

/// A resource of a `try` statement (JLS 14.20.3).
#[derive(Clone, Copy)]
pub struct Resource {
    /// Its number in the body's list of variables.
    pub variable: u32,
    pub initializer: ExprId,
    /// The `close()` that a call on the resource's declared type names.
    pub close: MethodId,
    /// The place of the declared name.
    pub pos: Pos,
}

/// A catch clause (JLS 14.20).
#[derive(Drop)]
pub struct CatchClause {
    /// Its number in the body's list of variables. Its type is the least class that all alternatives are under.
    pub variable: u32,
    /// The alternatives, in textual order, at least one.
    pub classes: Vec<ClassId>,
    pub block: StmtId,
}

/// The call of the super class's constructor (JLS 8.8.7.1).
#[derive(Drop)]
pub struct SuperCall {
    pub constructor: MethodId,
    pub arguments: Vec<ExprId>,
    /// False where it is implied.
    pub written: bool,
}

/// A typed expression.
#[derive(Drop)]
pub struct TExpr {
    pub kind: ExpressionKind,
    /// None for a call of a method without a result.
    pub vtype: Option<VType>,
    /// For a call the method's name, for a field access the field's name, for a `new` that word, for a binary
    /// expression, an assignment or a postfix expression the operator, for a conditional the `?`, for an element the
    /// `[`, and else the first token. An implied `this` has the place of the name that implies it, the implied 1 of an
    /// increment that of the increment.
    pub pos: Pos,
}

/// What an expression is (JLS 15).
#[derive(Drop)]
pub enum ExpressionKind {
    Literal(Literal),
    /// A variable of the body, by its number in the list of variables.
    Local(u32),
    /// `this`, and whether it is written.
    This(bool),
    /// An instance field of a program class, and the object that it is read from.
    Field(ExprId, FieldId),
    /// A static field of a program class.
    StaticField(FieldId),
    /// A static final field of class type of a stub.
    LibraryConstant(MethodId),
    /// The operand is promoted to the node's type, but for `!`.
    Unary(UnaryOperator, ExprId),
    Binary(BinaryExpression),
    /// The condition, and the values where it is true and where it is false.
    Conditional(ExprId, ExprId, ExprId),
    /// The operand and the tested type.
    InstanceOf(ExprId, VType),
    /// The operand of a cast to a primitive type, which is the node's type.
    PrimitiveCast(ExprId),
    /// The operand of a cast to a reference type, which is the node's type.
    ReferenceCast(ExprId),
    /// What is assigned to, and the value.
    Assignment(AssignmentTarget, ExprId),
    /// `x op= e`, and also `++x` and `--x`, which are `x += 1` and `x -= 1` (JLS 15.15.1) with an implied literal 1.
    OperatorAssignment(OperatorAssignment),
    /// `x++` and `x--` (JLS 15.14.2), which add or subtract an implied literal 1 and give the old value.
    PostfixStep(OperatorAssignment),
    Call(CallExpression),
    NewObject(NewObject),
    /// The size. The node's type is that of the array.
    NewArray(ExprId),
    /// The array and the index.
    Element(ExprId, ExprId),
    /// The array.
    Length(ExprId),
}

/// A binary operator with its operands.
#[derive(Clone, Copy)]
pub struct BinaryExpression {
    pub operator: BinaryOperator,
    pub left: ExprId,
    pub right: ExprId,
    pub operands: OperandType,
}

/// The left-hand side of a simple assignment (JLS 15.26.1).
#[derive(Clone, Copy)]
pub enum AssignmentTarget {
    /// A variable of the body, by its number in the list of variables.
    Local(u32),
    /// An instance field, and the object that has it.
    Field(ExprId, FieldId),
    StaticField(FieldId),
    /// The array and the index.
    Element(ExprId, ExprId),
}

/// An assignment of an operator's result (JLS 15.26.2). The result is cast to the target's type, which is the node's.
#[derive(Clone, Copy)]
pub struct OperatorAssignment {
    /// A local, a static field or a field of `this`.
    pub target: ExprId,
    pub operator: BinaryOperator,
    pub value: ExprId,
    pub operands: OperandType,
}

/// A method call (JLS 15.12).
#[derive(Drop)]
pub struct CallExpression {
    pub target: CallTarget,
    /// The method that overload resolution names. What runs is found by the run-time class of the target.
    pub method: MethodId,
    pub arguments: Vec<ExprId>,
}

/// The target of a call, in the form in which it stands. `this` is an expression also where it is implied.
#[derive(Clone, Copy)]
pub enum CallTarget {
    /// The call of a static method.
    Static,
    /// `this`, written or implied.
    This(ExprId),
    /// `super.m(..)`, whose target is an implied `this`.
    Super(ExprId),
    /// Any other expression.
    Other(ExprId),
}

/// A class instance creation (JLS 15.9).
#[derive(Drop)]
pub struct NewObject {
    pub class: ClassId,
    pub constructor: MethodId,
    pub arguments: Vec<ExprId>,
}
