/// What an action of the grammar's table does: it takes values from the stack and leaves values there.
#[derive(Copy, Clone)]
pub enum Action {
    /// An action that looks at the last token.
    Token(TokenAction),
    /// An action of expressions, names and types.
    Compute(ExpressionAction),
    /// An action of annotations and modifiers.
    Annotate(AnnotationAction),
    /// An action of statements.
    State(StatementAction),
    /// An action of declarations.
    Declare(DeclarationAction),
}

/// The actions at a token: the last one that was taken.
#[derive(Copy, Clone)]
pub enum TokenAction {
    /// The place of the token, which an action behind needs.
    Place,
    /// The token itself, which an action behind needs.
    Keep,
    /// An identifier, or the `this` of a receiver parameter.
    Name,
    /// A further identifier of a name (JLS 6.2), behind a dot.
    ExtendName,
    /// The first of identifiers that dots join.
    FirstIdentifier,
    /// A further one, behind a dot.
    NextIdentifier,
    /// A primitive type (JLS 4.2).
    PrimitiveType,
    /// A literal (JLS 3.10).
    Literal,
    /// `this` (JLS 15.8.3).
    This,
    /// `++` or `--` behind its operand (JLS 15.14).
    Increment,
    /// An operator between two operands (JLS 15.17 to 15.24): those before it that bind at least as tight have their right operands now.
    Operator,
    /// `instanceof` (JLS 15.20.2), which binds as a comparison by order.
    InstanceOperator,
    /// `;` as a statement (JLS 14.6).
    EmptyStatement,
    /// `break` (JLS 14.15).
    Break,
    /// `continue` (JLS 14.16).
    Continue,
    /// A block (JLS 14.2) at its `}`.
    Block,
    /// The body of a constructor (JLS 8.8.7) at its `}`.
    ConstructorBody,
}

/// The actions of expressions, names and types.
#[derive(Copy, Clone)]
pub enum ExpressionAction {
    /// No expression of a list yet.
    NoExpressions,
    /// A further expression of a list.
    AndExpression,
    /// Arguments stand behind an identifier.
    SomeCall,
    /// No arguments stand behind an identifier.
    NoCall,
    /// An identifier, or a call of the method with that name (JLS 15.12).
    Head,
    /// A field access (JLS 15.11), or a call of a method of an expression (JLS 15.12).
    Selector,
    /// `super`, `.`, a name and arguments (JLS 15.12).
    SuperMethodCall,
    /// Identifiers and arguments: a call whose method the last identifier names.
    NamedCall,
    /// Identifiers are an expression (JLS 6.5): a variable and fields.
    NameExpression,
    /// An element of an array (JLS 15.10.3).
    Index,
    /// An element of the array that identifiers name.
    NamedIndex,
    /// A new object (JLS 15.9).
    NewObject,
    /// A new array (JLS 15.10.1).
    NewArray,
    /// A name is a type (JLS 4.3).
    NamedType,
    /// Identifiers are a type (JLS 6.5).
    IdentifiersType,
    /// Identifiers, `[` and `]` are an array type (JLS 10.1).
    ArrayType,
    /// An array of a type (JLS 10.1).
    ArrayOf,
    /// `+`, `-`, `!` or `~` before its operand (JLS 15.15).
    Prefix,
    /// `++` or `--` before its operand (JLS 15.15.1).
    PrefixIncrement,
    /// A cast (JLS 15.16).
    Cast,
    /// An expression in parentheses (JLS 15.8.5).
    Parentheses,
    /// Parentheses hold identifiers.
    NamesInside,
    /// Parentheses hold an array type.
    ArrayInside,
    /// Parentheses hold another expression.
    ExpressionInside,
    /// What the parentheses hold is the type of a cast (JLS 15.16).
    CastType,
    /// What the parentheses hold is an expression.
    ParenthesizedExpression,
    /// An operand, which operators may follow.
    BeginOperations,
    /// No operator follows: all have their right operands.
    EndOperations,
    /// An `instanceof` with its type (JLS 15.20.2).
    InstanceOf,
    /// A condition, `?` and the two alternatives (JLS 15.25).
    Conditional,
    /// An assignment (JLS 15.26.1).
    Assignment,
    /// A compound assignment (JLS 15.26.2).
    CompoundAssignment,
    /// The place where the expression begins is not needed.
    LeavePlace,
}

/// The actions of annotations and modifiers.
#[derive(Copy, Clone)]
pub enum AnnotationAction {
    /// No argument of an annotation yet.
    NoArguments,
    /// An annotation (JLS 9.7).
    Annotation,
    /// A pair of a name and a value (JLS 9.7.1).
    Pair,
    /// The value of a SingleElementAnnotation (JLS 9.7.3).
    SingleValue,
    /// An expression as a value.
    ExpressionValue,
    /// An annotation as a value.
    AnnotationValue,
    /// No value in braces yet.
    NoValues,
    /// A further value in braces.
    AndValue,
    /// Values in braces as one value.
    ListValue,
    /// A further annotation.
    AndAnnotation,
    /// No modifier yet.
    NoModifiers,
    /// An annotation among modifiers.
    AnnotationModifier,
    /// The annotation with which a local variable's declaration begins.
    FirstAnnotation,
    /// The modifier `public`.
    Public,
    /// The modifier `protected`.
    Protected,
    /// The modifier `private`.
    Private,
    /// The modifier `static`.
    Static,
    /// The modifier `final`.
    Final,
    /// The modifier `abstract`.
    Abstract,
}

/// The actions of statements.
#[derive(Copy, Clone)]
pub enum StatementAction {
    /// The first name that a declaration declares.
    FirstVariable,
    /// A variable with its initializer (JLS 8.3, 14.4).
    Variable,
    /// A variable without one.
    PlainVariable,
    /// A declaration of local variables without modifiers (JLS 14.4).
    PlainLocal,
    /// A declaration of local variables with modifiers (JLS 14.4).
    ModifiedLocal,
    /// A declaration of local variables as a statement.
    LocalStatement,
    /// An expression as a statement (JLS 14.8).
    ExpressionStatement,
    /// No statement of a block yet.
    NoStatements,
    /// A further statement of a block.
    AndStatement,
    /// A block as a statement (JLS 14.2).
    BlockStatement,
    /// An `if` without `else` (JLS 14.9).
    If,
    /// An `if` with `else` (JLS 14.9).
    IfElse,
    /// A `while` (JLS 14.12).
    While,
    /// A `do` (JLS 14.13).
    Do,
    /// A `for` (JLS 14.14.1).
    For,
    /// A `for` begins with a declaration.
    ForLocal,
    /// A `for` begins with expressions, or with none.
    ForExpressions,
    /// The first expression with which a `for` begins.
    FirstExpression,
    /// An expression that may be absent.
    SomeExpression,
    /// The absent expression.
    NoExpression,
    /// No resource of a `try` yet.
    NoResources,
    /// A resource of a `try` (JLS 14.20.3).
    Resource,
    /// No catch clause of a `try` yet.
    NoCatches,
    /// A catch clause (JLS 14.20).
    Catch,
    /// A `try` without `finally` (JLS 14.20).
    Try,
    /// A `try` with `finally` (JLS 14.20.2).
    TryFinally,
    /// A `return` (JLS 14.17).
    Return,
    /// A `throw` (JLS 14.18).
    Throw,
    /// No name of a list yet.
    NoNames,
    /// A further name of a list.
    AndName,
}

/// The actions of declarations.
#[derive(Copy, Clone)]
pub enum DeclarationAction {
    /// No name is written.
    NoName,
    /// A name that may be absent.
    SomeName,
    /// No import yet.
    NoImports,
    /// An import of a type (JLS 7.5.1).
    Import,
    /// An import of all types of a package (JLS 7.5.2).
    ImportAll,
    /// No class or interface yet.
    NoTypes,
    /// A source file (JLS 7.3), or a section of a stub file.
    Unit,
    /// No section of a stub file yet.
    NoUnits,
    /// A further section of a stub file.
    AndUnit,
    /// No member yet.
    NoMembers,
    /// A class (JLS 8.1).
    Class,
    /// An interface (JLS 9.1).
    Interface,
    /// A method gives no result: `void` (JLS 8.4.5).
    NoResult,
    /// A method gives a result of a type (JLS 8.4.5).
    SomeResult,
    /// The type and the name are those of a method.
    Method,
    /// A declaration of fields (JLS 8.3).
    Field,
    /// No parameter yet.
    NoParameters,
    /// A declared parameter (JLS 8.4.1).
    Parameter,
    /// A receiver parameter (JLS 8.4).
    Receiver,
    /// A method with its body (JLS 8.4).
    MethodBody,
    /// A method without a body (JLS 8.4, 9.4).
    MethodHead,
    /// A constructor with its body (JLS 8.8).
    Constructor,
    /// A constructor without a body, in a stub file.
    ConstructorHead,
    /// A constructor begins with no call of a constructor of the super class.
    NoSuperCall,
    /// It begins with such a call (JLS 8.8.7.1).
    SuperCall,
    /// It begins with a statement.
    FirstStatement,
}
