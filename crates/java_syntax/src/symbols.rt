use crate::actions::Action;
use crate::words::{Effect, Word};

/// The symbols of the grammar, each with its name in JLS chapter 19, or the part of such a symbol that it is: the grammar is
/// factored from the left, so that the next token decides.
#[derive(Copy, Clone)]
pub enum Symbol {
    /// CompilationUnit (JLS 7.3): a source file.
    CompilationUnit,
    /// A stub file: sections, each as a CompilationUnit with its package.
    StubFile,
    /// The rest of a stub file.
    Sections,
    /// One section of a stub file: a PackageDeclaration, imports and types.
    Section,
    /// [PackageDeclaration] of CompilationUnit.
    OptionalPackage,
    /// {ImportDeclaration} of CompilationUnit.
    Imports,
    /// ImportDeclaration (JLS 7.5): of one type, or of all types of a package.
    Import,
    /// ImportDeclaration behind an identifier of its name.
    ImportTail,
    /// ImportDeclaration behind a `.`: the next identifier, or `*`.
    ImportStep,
    /// TypeName or PackageName (JLS 6.5): identifiers with `.` between them.
    Name,
    /// A name behind one of its identifiers.
    NameTail,
    /// InterfaceTypeList or ExceptionTypeList: names with `,` between them.
    Names,
    /// A list of names behind one of them.
    MoreNames,
    /// {TypeDeclaration} of CompilationUnit.
    Types,
    /// TypeDeclaration (JLS 7.6): a class, an interface, or `;`.
    TypeDeclaration,
    /// ClassDeclaration or InterfaceDeclaration behind its modifiers.
    TypeKind,
    /// [Superclass] of ClassDeclaration (JLS 8.1.4).
    Superclass,
    /// [ExtendsInterfaces] of InterfaceDeclaration (JLS 9.1.3).
    Superinterfaces,
    /// [Superinterfaces] of ClassDeclaration (JLS 8.1.5).
    Interfaces,
    /// {Modifier} of a type, field, method or constructor (JLS 8.1.1, 8.3.1, 8.4.3, 8.8.3, 9.4).
    Modifiers,
    /// {VariableModifier} (JLS 4.12.4), where `final` has not stood yet.
    VariableModifiers,
    /// {VariableModifier} behind `final`.
    FinalModifiers,
    /// {ClassBodyDeclaration} of ClassBody (JLS 8.1.6).
    Members,
    /// ClassBodyDeclaration: a field, a method, a constructor, or `;`.
    Member,
    /// ClassBodyDeclaration behind its modifiers.
    MemberRest,
    /// ClassBodyDeclaration behind an identifier: that is a constructor's name, or begins a type (FieldDeclaration, MethodDeclaration, ConstructorDeclaration).
    AfterMemberName,
    /// FieldDeclaration or MethodDeclaration behind its type and its name.
    FieldOrMethod,
    /// MethodDeclaration (JLS 8.4) behind its name.
    MethodRest,
    /// MethodBody (JLS 8.4.7): a block or `;`.
    MethodBody,
    /// ConstructorBody (JLS 8.8.7), or the `;` of a stub.
    ConstructorBody,
    /// ConstructorBody behind its `{`: an ExplicitConstructorInvocation, or statements.
    ConstructorStart,
    /// ConstructorBody behind a `super` that begins it: an ExplicitConstructorInvocation (JLS 8.8.7.1), or a call of the super class's method.
    AfterSuper,
    /// [Throws] (JLS 8.4.6).
    Throws,
    /// `(` [FormalParameterList] `)` (JLS 8.4.1).
    Parameters,
    /// [FormalParameterList]: its first parameter may be the receiver parameter.
    FirstParameter,
    /// The name of the first parameter: an identifier, or the `this` of ReceiverParameter.
    ParameterName,
    /// FormalParameterList behind a parameter.
    MoreParameters,
    /// UnannType (JLS 8.3): a primitive type or a class type, or an array of one.
    Type,
    /// [Dims] (JLS 10.2), one pair at most.
    Brackets,
    /// [`=` VariableInitializer] of VariableDeclarator (JLS 8.3).
    Initializer,
    /// VariableDeclaratorList behind a VariableDeclarator.
    MoreVariables,
    /// VariableDeclaratorList (JLS 8.3).
    Variables,
    /// {InterfaceMemberDeclaration} of InterfaceBody (JLS 9.1.4).
    InterfaceMembers,
    /// InterfaceMemberDeclaration (JLS 9.4): a method without a body, or `;`.
    InterfaceMember,
    /// Result (JLS 8.4.5): a type or `void`.
    ResultType,
    /// {Annotation}: a list of annotations, which may be none.
    Annotations,
    /// Annotation (JLS 9.7).
    Annotation,
    /// What stands in an annotation's parentheses, with them (JLS 9.7.1 to 9.7.3).
    AnnotationArguments,
    /// [ElementValuePairList] of NormalAnnotation, or the ElementValue of SingleElementAnnotation.
    AnnotationValues,
    /// The same behind an identifier: that is a pair's name, or begins a ConditionalExpression.
    AfterAnnotationName,
    /// ElementValuePairList behind a pair.
    MorePairs,
    /// ElementValue (JLS 9.7.1).
    Value,
    /// ElementValue that does not begin with an identifier.
    OtherValue,
    /// ElementValueArrayInitializer between its braces: [ElementValueList] [`,`].
    ValueList,
    /// ElementValueArrayInitializer behind a value.
    MoreValues,
    /// ElementValueArrayInitializer behind a value's `,`.
    AfterComma,
    /// Block (JLS 14.2).
    Block,
    /// BlockStatements, which may be none.
    Statements,
    /// BlockStatement (JLS 14.2): a local variable's declaration or a statement.
    Statement,
    /// BlockStatement that does not begin with `super`.
    PlainStatement,
    /// LocalVariableDeclaration (JLS 14.4) that does not begin with an identifier.
    PlainLocal,
    /// BlockStatement behind identifiers with `.` between them: these are a LocalVariableDeclaration's type or begin an ExpressionStatement.
    AfterStatementName,
    /// The same behind a `[`: an array type's `]`, or an index.
    AfterStatementBracket,
    /// Statement (JLS 14.5).
    Substatement,
    /// Statement that begins neither with an identifier nor with `super`.
    OtherStatement,
    /// [`else` Statement] of IfThenStatement or IfThenElseStatement (JLS 14.9): an `else` belongs to the nearest `if` that can have it.
    ElsePart,
    /// [Expression] of a `return` or a `for`.
    OptionalExpression,
    /// [ForInit] of BasicForStatement (JLS 14.14.1).
    ForStart,
    /// ForInit behind identifiers with `.` between them: these are a local variable's type or begin a StatementExpression.
    AfterForName,
    /// The same behind a `[`: an array type's `]`, or an index.
    AfterForBracket,
    /// [ForUpdate] of BasicForStatement.
    ForUpdate,
    /// StatementExpressionList behind a StatementExpression.
    MoreActions,
    /// TryStatement or TryWithResourcesStatement (JLS 14.20) behind its `try`.
    TryRest,
    /// TryStatement behind its block: Catches, [Finally], but not neither.
    Handlers,
    /// [Catches] (JLS 14.20).
    Catches,
    /// [Finally].
    OptionalFinally,
    /// Finally.
    Finally,
    /// CatchClause.
    Catch,
    /// CatchType behind a name of it.
    CatchNames,
    /// Resource (JLS 14.20.3).
    Resource,
    /// ResourceList behind a resource, with the last `;`.
    MoreResources,
    /// ResourceList behind a resource's `;`.
    AfterResource,
    /// StatementExpression (JLS 14.8): an assignment, a `++` or `--`, a call, or a `new` with arguments.
    Action,
    /// StatementExpression that begins neither with an identifier nor with `super`.
    OtherAction,
    /// StatementExpression behind a Primary: that is its left side, its operand, or the whole.
    StatementTail,
    /// The same, where it is not the whole.
    SomeAction,
    /// Expression (JLS 15.27).
    Expression,
    /// Expression that does not begin with an identifier.
    OtherExpression,
    /// Expression behind a `(`, of a CastExpression or of parentheses.
    AfterOpenExpression,
    /// Expression behind what a `(` and its `)` hold: the operand of a CastExpression (JLS 15.16), or what goes on behind parentheses (JLS 15.8.5).
    AfterInsideExpression,
    /// Expression behind a Primary.
    ExpressionTail,
    /// The same, where it is not the whole: of an Assignment (JLS 15.26), a PostfixExpression (JLS 15.14), a binary or a conditional expression.
    SomeTail,
    /// ConditionalExpression (JLS 15.25) behind its ConditionalOrExpression.
    Choice,
    /// The same with its `?`.
    SomeChoice,
    /// ConditionalExpression.
    Condition,
    /// ConditionalOrExpression (JLS 15.17 to 15.24) behind an operand: the operators and operands that follow, as a list.
    Operations,
    /// An operator of MultiplicativeExpression, AdditiveExpression or ShiftExpression, and its right operand.
    TightOperation,
    /// ConditionalOrExpression behind an operand, from an operator of RelationalExpression or a looser one on.
    LooseOperations,
    /// ConditionalOrExpression behind the type of an `instanceof` (JLS 15.20.2), which no tighter operator follows.
    AfterInstance,
    /// UnaryExpression (JLS 15.15).
    Unary,
    /// UnaryExpression that does not begin with an identifier.
    OtherUnary,
    /// UnaryExpression with a prefix operator.
    Prefixed,
    /// UnaryExpression behind a `(`, of a CastExpression or of parentheses.
    AfterOpenUnary,
    /// UnaryExpressionNotPlusMinus (JLS 15.15).
    Unsigned,
    /// UnaryExpressionNotPlusMinus behind a `(`.
    AfterOpenUnsigned,
    /// CastExpression behind its `(` and PrimitiveType.
    PrimitiveCast,
    /// What stands behind a `(` up to its `)`: a type of a CastExpression, or an Expression.
    Inside,
    /// The same behind identifiers with `.` between them: these are the type, or begin the Expression.
    AfterInsideName,
    /// The same behind a `[`: an array type's `]`, or an index.
    AfterInsideBracket,
    /// UnaryExpressionNotPlusMinus behind a `(` and its `)`: a CastExpression's operand, or what follows parentheses.
    AfterInside,
    /// The `++` and `--` of PostfixExpression (JLS 15.14).
    Steps,
    /// What follows a Primary within a Primary: field accesses, calls and indices (JLS 15.8).
    Suffixes,
    /// The arguments of MethodInvocation (JLS 15.12), where the name is a method's.
    Call,
    /// `(` [ArgumentList] `)`.
    Arguments,
    /// [ArgumentList] (JLS 15.12).
    ArgumentList,
    /// ArgumentList behind an argument.
    MoreArguments,
    /// Primary (JLS 15.8) that begins neither with an identifier nor with `(`.
    OtherPrimary,
    /// Primary that begins with a literal, `this` or `new`.
    PlainPrimary,
    /// ClassInstanceCreationExpression (JLS 15.9) or ArrayCreationExpression (JLS 15.10) behind its `new`.
    Creator,
    /// The same behind its class's name.
    CreatorRest,
    /// A Primary behind an ArrayCreationExpression, which no `[` follows.
    AfterArray,
}

/// An item of a production: a word, with its effect, a symbol, or an action.
#[derive(Copy, Clone)]
pub enum Item {
    /// A word.
    Take(Word, Effect),
    /// A symbol.
    Read(Symbol),
    /// An action, which takes no token.
    Do(Action),
}
