//! The numbers by which the parts of a program are named, and the small kinds that its tables are made of.

/// A class or interface: its place in `Program::classes`. Numbers follow class order, the order of declaration in the
/// files with the core stub first.
#[derive(Clone, Copy, Debug, PartialEq, Eq, Hash)]
pub struct ClassId(pub u32);

/// A method, constructor or library constant: its place in `Program::methods`.
#[derive(Clone, Copy, Debug, PartialEq, Eq)]
pub struct MethodId(pub u32);

/// A field of a program class: its place in `Program::fields`.
#[derive(Clone, Copy, Debug, PartialEq, Eq, Hash)]
pub struct FieldId(pub u32);

/// The body of a method or constructor: its place in `Program::bodies`.
#[derive(Clone, Copy)]
pub struct BodyId(pub u32);

/// A typed statement: its place in `Body::statements` of its body.
#[derive(Clone, Copy, PartialEq, Eq, Hash)]
pub struct StmtId(pub u32);

/// A typed expression: its place in `Body::expressions` of its body.
#[derive(Clone, Copy, PartialEq, Eq, Hash)]
pub struct ExprId(pub u32);

/// The primitive types (JLS 4.2) of the subset.
#[derive(Clone, Copy, PartialEq, Eq)]
pub enum Primitive {
    Boolean,
    Byte,
    Char,
    Int,
    Long,
}

/// What an array holds: a primitive type, or texts.
#[derive(Clone, Copy, PartialEq, Eq)]
pub enum ElementType {
    Primitive(Primitive),
    Str,
}

/// A type (JLS 4.1).
#[derive(Clone, Copy, PartialEq, Eq)]
pub enum VType {
    Primitive(Primitive),
    /// `java.lang.String`, which is never written `Obj`.
    Str,
    /// An array of one dimension (JLS 10.1).
    Arr(ElementType),
    /// Every class and interface type but `String`.
    Obj(ClassId),
    /// The type of `null` (JLS 4.1), which no declaration has.
    NullType,
}

/// What kind of member a method of the table is.
#[derive(Clone, Copy, PartialEq, Eq)]
pub enum MethodKind {
    Instance,
    Static,
    /// A constructor (JLS 8.8). Its result is none.
    Ctor,
    /// A static final field of class type of a stub. A read of it is a library call without arguments that throws
    /// nothing and gives its type.
    Constant,
}

/// On what a promise of called methods speaks.
#[derive(Clone, Copy)]
pub enum Target {
    /// The receiver at 0, and the k-th declared parameter at k.
    At(u32),
    /// An owning field of `this`.
    OfField(FieldId),
}

/// A literal (JLS 15.8.1), `null` included.
#[derive(Clone, Copy, PartialEq, Eq)]
pub enum Literal {
    /// An `int` or a `long`, with its sign where it stands under a unary minus that belongs to a static field's value.
    Number(i64),
    /// A UTF-16 code unit.
    Character(u16),
    Boolean(bool),
    /// A string literal. Its bytes are not kept: of a text the rules see only that it is not null.
    Text,
    Null,
}

/// The operators of unary expressions (JLS 15.15.3 to 15.15.6). An increment is no unary expression here.
#[derive(Clone, Copy, PartialEq, Eq)]
pub enum UnaryOperator {
    Plus,
    Minus,
    /// `~`
    Complement,
    /// `!`
    Not,
}

/// The operators of binary expressions and operator assignments (JLS 15.17 to 15.24, 15.26.2).
#[derive(Clone, Copy, PartialEq, Eq)]
pub enum BinaryOperator {
    Multiply,
    Divide,
    Remainder,
    /// `+`, of numbers and of strings.
    Add,
    Subtract,
    ShiftLeft,
    ShiftRight,
    /// `>>>`
    ShiftRightUnsigned,
    Less,
    Greater,
    LessOrEqual,
    GreaterOrEqual,
    Equal,
    NotEqual,
    /// `&`
    And,
    /// `^`
    Xor,
    /// `|`
    Or,
    /// `&&`
    ConditionalAnd,
    /// `||`
    ConditionalOr,
}

/// The type to which a binary operator takes its operands (JLS 5.6): for a shift the promoted type of the left one.
#[derive(Clone, Copy, PartialEq, Eq)]
pub enum OperandType {
    Boolean,
    Int,
    Long,
    /// Text concatenation (JLS 15.18.1).
    Text,
    /// The comparison of two references (JLS 15.21.3).
    Reference,
}
