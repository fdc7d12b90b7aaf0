use crate::{Identifiers, Lexeme, Nested, OpenOperation, Parenthesized};
use java_syntax::{
    Anno, AnnoArgument, AnnoValue, Block, Catch, ClassDecl, ConstructorBody, Expr, ForStart,
    Import, Local, Member, Modifier, Name, Param, Resource, Stmt, SuperCall, Typ, Unit, Variable,
};
use rlc_base::Pos;

/// The place of a token.
#[derive(Drop)]
pub struct Place {
    /// The place.
    pub pos: Pos,
}

/// The parameters of a method or a constructor (JLS 8.4.1).
#[derive(Drop)]
pub struct Parameters {
    /// The receiver parameter, which is no declared parameter.
    pub receiver: Option<Param>,
    /// The declared parameters, in their order.
    pub declared: Vec<Param>,
}

/// A value on the stack.
#[derive(Drop)]
pub enum Value {
    /// The place of a token.
    Place(Place),
    /// An operator that waits for its operands.
    Token(Lexeme),
    /// A name with its dots, or an identifier.
    Name(Name),
    /// A name that may be absent.
    OptionalName(Option<Name>),
    /// Identifiers that dots join: a type, or an expression.
    Identifiers(Identifiers),
    /// Names in their order.
    Names(Vec<Name>),
    /// A type.
    Type(Typ),
    /// The type of a method's result; none for `void`.
    OptionalType(Option<Typ>),
    /// An expression.
    Expression(Nested<Expr>),
    /// An expression that may be absent.
    OptionalExpression(Nested<Option<Expr>>),
    /// Expressions in their order.
    Expressions(Nested<Vec<Expr>>),
    /// The arguments behind an identifier, where it is a method's name.
    Call(Option<Nested<Vec<Expr>>>),
    /// Operators that wait for their right operands, the tightest last.
    Operations(Vec<OpenOperation>),
    /// What stands in parentheses.
    Parenthesized(Parenthesized),
    /// An annotation.
    Annotation(Nested<Anno>),
    /// Annotations in their order.
    Annotations(Nested<Vec<Anno>>),
    /// The arguments of an annotation, in their order.
    Arguments(Nested<Vec<AnnoArgument>>),
    /// A value in an annotation.
    AnnotationValue(Box<Nested<AnnoValue>>),
    /// Values in an annotation, in their order.
    AnnotationValues(Nested<Vec<AnnoValue>>),
    /// Annotations and modifier words, in their order.
    Modifiers(Nested<Vec<Modifier>>),
    /// Variables or fields, in their order.
    Variables(Nested<Vec<Variable>>),
    /// A declaration of local variables.
    Local(Nested<Local>),
    /// A statement.
    Statement(Box<Nested<Stmt>>),
    /// Statements in their order.
    Statements(Nested<Vec<Stmt>>),
    /// A block.
    Block(Nested<Block>),
    /// What a `for` begins with.
    ForStart(Nested<ForStart>),
    /// The resources of a `try`, in their order.
    Resources(Nested<Vec<Resource>>),
    /// The catch clauses of a `try`, in their order.
    Catches(Nested<Vec<Catch>>),
    /// The parameters of a method or a constructor.
    Parameters(Parameters),
    /// The call of a constructor of the super class that a constructor begins with, where it is written.
    SuperCall(Option<SuperCall>),
    /// The body of a constructor.
    ConstructorBody(ConstructorBody),
    /// Members in their order.
    Members(Vec<Member>),
    /// Classes and interfaces in their order.
    Types(Vec<ClassDecl>),
    /// Imports in their order.
    Imports(Vec<Import>),
    /// A source file, or a section of a stub file.
    Unit(Unit),
    /// The sections of a stub file, in their order.
    Units(Vec<Unit>),
}
