use crate::annotation_trees::Modifier;
use crate::expression_trees::Expr;
use crate::names::{Name, Typ};
use rlc_base::Pos;

/// A variable or field that a declaration declares (JLS 8.3, 14.4).
#[derive(Drop)]
pub struct Variable {
    /// Its name, which is its place.
    pub name: Name,
    /// What stands behind `=`.
    pub initializer: Option<Expr>,
}

/// A declaration of local variables (JLS 14.4).
#[derive(Drop)]
pub struct Local {
    /// Its annotations and `final`, in order.
    pub modifiers: Vec<Modifier>,
    /// The type of all its variables.
    pub typ: Typ,
    /// The variables, one at least, in order.
    pub variables: Vec<Variable>,
}

/// A resource of a `try` (JLS 14.20.3).
#[derive(Drop)]
pub struct Resource {
    /// Its annotations and `final`, in order.
    pub modifiers: Vec<Modifier>,
    /// Its class.
    pub class: Name,
    /// Its name, which is its place.
    pub name: Name,
    /// What opens it.
    pub value: Expr,
}

/// What a `for` begins with (JLS 14.14.1).
#[derive(Drop)]
pub enum ForStart {
    /// A declaration.
    Declaration(Local),
    /// Expressions, none at all among them, in order.
    Expressions(Vec<Expr>),
}

/// A block (JLS 14.2).
#[cycle(statements)]
#[derive(Drop)]
pub struct Block {
    /// Its statements, in order.
    pub statements: Vec<Stmt>,
    /// The place of `{`.
    pub pos: Pos,
    /// The place of `}`.
    pub end: Pos,
}

/// A catch clause (JLS 14.20).
#[cycle(statements)]
#[derive(Drop)]
pub struct Catch {
    /// The annotations and `final` of its parameter, in order.
    pub modifiers: Vec<Modifier>,
    /// The classes that it takes, one at least, in order.
    pub classes: Vec<Name>,
    /// Its parameter, whose name is its place.
    pub name: Name,
    /// What it does.
    pub block: Block,
}

/// A statement (JLS 14). Its place is that of its first token.
#[cycle(statements)]
#[derive(Drop)]
pub enum Stmt {
    /// A block.
    Block(Block),
    /// `;`.
    Empty {
        pos: Pos,
    },
    /// A declaration of local variables.
    Local {
        local: Local,
        pos: Pos,
    },
    /// An assignment, `++`, `--`, call or `new` (JLS 14.8).
    Expression {
        expression: Expr,
        pos: Pos,
    },
    /// `if` (JLS 14.9).
    If {
        condition: Expr,
        then: Box<Stmt>,
        otherwise: Option<Box<Stmt>>,
        pos: Pos,
    },
    /// `while` (JLS 14.12).
    While {
        condition: Expr,
        body: Box<Stmt>,
        pos: Pos,
    },
    /// `do` (JLS 14.13).
    Do {
        body: Box<Stmt>,
        condition: Expr,
        pos: Pos,
    },
    /// `for` (JLS 14.14.1).
    For {
        start: ForStart,
        condition: Option<Expr>,
        updates: Vec<Expr>,
        body: Box<Stmt>,
        pos: Pos,
    },
    /// `try` (JLS 14.20): resources, the block, catch clauses in order, and the block of `finally`.
    Try {
        resources: Vec<Resource>,
        block: Block,
        catches: Vec<Catch>,
        finally: Option<Block>,
        pos: Pos,
    },
    /// `return` (JLS 14.17).
    Return {
        value: Option<Expr>,
        pos: Pos,
    },
    /// `throw` (JLS 14.18).
    Throw {
        value: Expr,
        pos: Pos,
    },
    /// `break` (JLS 14.15).
    Break {
        pos: Pos,
    },
    /// `continue` (JLS 14.16).
    Continue {
        pos: Pos,
    },
}
