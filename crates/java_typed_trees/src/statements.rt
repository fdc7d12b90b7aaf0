//! Typed statements as trees.

ghost use Rattle.std.specs.Prelude.{◌≡◌, map};
ghost use Rattle.java_typed_trees.specs.ExpressionTrees.{expressions, tree_of};
ghost use Rattle.java_typed_trees.specs.StatementTrees.{Statement, form_of, statement_of, statements};

use crate::trees::ExpressionTree;
use program_model::{ClassId, MethodId};
use rlc_base::Pos;

/// What a statement is (JLS 14), without the expressions and statements that are its parts: one shape for each kind of
/// statement of a typed body.
#[derive(Drop)]
pub enum StatementShape {
    /// The place of the closing brace. Its parts are its statements.
    Block(Pos),
    Empty,
    /// The declared variables. Its parts are the initialisers of those that have one.
    LocalDeclaration(Vec<DeclaratorShape>),
    /// Its part is the expression.
    Expression,
    /// Whether there is an `else`. Its parts are the condition, and what runs where it is true and where it is false.
    If(bool),
    /// Its parts are the condition and the body.
    While,
    /// Its parts are the condition and the body.
    Do,
    /// Its parts are the expressions of the first part, the condition, the updates, and the body.
    For(ForShape),
    /// Whether a value is returned, which is then its part.
    Return(bool),
    /// Its part is what is thrown.
    Throw,
    Break,
    Continue,
    /// Its parts are the initialisers of the resources, the block, the blocks of the catch clauses, and that of `finally`.
    Try(TryShape),
    /// The constructor, and whether the call is written. Its parts are the arguments.
    SuperCall(MethodId, bool),
    /// Its part is the assignment `this.f = e`.
    FieldInitializer,
    /// A statement that is refused, which stands in no typed body.
    Erroneous,
}

/// One declared name of a local declaration, without its initialiser.
#[derive(Clone, Copy)]
pub struct DeclaratorShape {
    /// Its number in the body's list of variables.
    pub variable: u32,
    pub has_initializer: bool,
    /// The place of the declared name.
    pub pos: Pos,
}

/// The basic `for` statement (JLS 14.14.1), without its parts.
#[derive(Drop)]
pub struct ForShape {
    pub initial: InitialShape,
    pub has_condition: bool,
}

/// The first part of a `for` statement.
#[derive(Drop)]
pub enum InitialShape {
    /// Its parts are the initialisers of those that have one.
    Declaration(Vec<DeclaratorShape>),
    /// How many expressions it is, maybe 0.
    Expressions(usize),
}

/// A `try` statement (JLS 14.20), without its parts.
#[derive(Drop)]
pub struct TryShape {
    pub resources: Vec<ResourceShape>,
    pub catches: Vec<CatchShape>,
    pub has_finally: bool,
}

/// A resource of a `try` statement (JLS 14.20.3), without its initialiser.
#[derive(Clone, Copy)]
pub struct ResourceShape {
    /// Its number in the body's list of variables.
    pub variable: u32,
    /// The `close()` that a call on the resource's declared type names.
    pub close: MethodId,
    /// The place of the declared name.
    pub pos: Pos,
}

/// A catch clause (JLS 14.20), without its block.
#[derive(Drop)]
pub struct CatchShape {
    /// Its number in the body's list of variables.
    pub variable: u32,
    /// The alternatives, in textual order.
    pub classes: Vec<ClassId>,
}

/// A typed statement with its parts.
#[derive(Drop)]
pub struct StatementTree {
    pub shape: StatementShape,
    /// The place, as that of a typed statement of a body.
    pub pos: Pos,
    /// The expressions that are its parts, in textual order.
    pub expressions: Vec<ExpressionTree>,
    /// The statements that are its parts, in textual order.
    pub statements: Vec<StatementTree>,
}

/// The statement of this shape with these parts.
pub fn statement_tree(
    shape: StatementShape,
    pos: Pos,
    values: Vec<ExpressionTree>,
    inner: Vec<StatementTree>,
) -> StatementTree
    ensures { statement_of result ≡ Statement (form_of shape) pos (expressions (map tree_of values.items)) (statements (map statement_of inner.items)) }
{
    StatementTree {
        shape,
        pos,
        expressions: values,
        statements: inner,
    }
}
