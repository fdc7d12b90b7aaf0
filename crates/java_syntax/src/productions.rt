/// The productions of declarations and annotations, each with its right side; of several operators one stands for all.
#[derive(Copy, Clone)]
pub enum DeclarationProduction {
    /// CompilationUnit: OptionalPackage Imports Types.
    UnitOf,
    /// StubFile: Sections.
    StubOf,
    /// Sections: Section Sections.
    AndSection,
    /// Sections: Nothing.
    NoSection,
    /// Section: `package` Name `;` Imports Types.
    SectionOf,
    /// OptionalPackage: `package` Name `;`.
    SomePackage,
    /// OptionalPackage: Nothing.
    NoPackage,
    /// Imports: Import Imports.
    AndImport,
    /// Imports: Nothing.
    NoImport,
    /// Import: `import` Identifier ImportTail `;`.
    ImportOf,
    /// ImportTail: `.` ImportStep.
    ImportDot,
    /// ImportTail: Nothing.
    ImportEnd,
    /// ImportStep: Identifier ImportTail.
    ImportName,
    /// ImportStep: `*`.
    ImportAll,
    /// Name: Identifier NameTail.
    NameOf,
    /// NameTail: `.` Identifier NameTail.
    NameDot,
    /// NameTail: Nothing.
    NameEnd,
    /// Names: Name MoreNames.
    NamesOf,
    /// MoreNames: `,` Name MoreNames.
    AndName,
    /// MoreNames: Nothing.
    LastName,
    /// Types: TypeDeclaration Types.
    AndType,
    /// Types: Nothing.
    NoType,
    /// TypeDeclaration: `;`.
    LoneSemicolon,
    /// TypeDeclaration: Modifiers TypeKind.
    ModifiedType,
    /// TypeKind: `class` Identifier Superclass Interfaces `{` Members `}`.
    ClassOf,
    /// TypeKind: `interface` Identifier Superinterfaces `{` InterfaceMembers `}`.
    InterfaceOf,
    /// Superclass: `extends` Name.
    SomeSuperclass,
    /// Superclass: Nothing.
    NoSuperclass,
    /// Superinterfaces: `extends` Names.
    SomeSuperinterfaces,
    /// Superinterfaces: Nothing.
    NoSuperinterface,
    /// Interfaces: `implements` Names.
    SomeInterfaces,
    /// Interfaces: Nothing.
    NoInterface,
    /// Modifiers: Annotation Modifiers.
    AndAnnotation,
    /// Modifiers: `public` Modifiers.
    AndPublic,
    /// Modifiers: `protected` Modifiers.
    AndProtected,
    /// Modifiers: `private` Modifiers.
    AndPrivate,
    /// Modifiers: `static` Modifiers.
    AndStatic,
    /// Modifiers: `final` Modifiers.
    AndFinal,
    /// Modifiers: `abstract` Modifiers.
    AndAbstract,
    /// Modifiers: Nothing.
    NoModifier,
    /// VariableModifiers: Annotation VariableModifiers.
    VariableAnnotation,
    /// VariableModifiers: `final` FinalModifiers.
    VariableFinal,
    /// VariableModifiers: Nothing.
    NoVariableModifier,
    /// FinalModifiers: Annotation FinalModifiers.
    FinalAnnotation,
    /// FinalModifiers: Nothing.
    NoFinalModifier,
    /// Members: Member Members.
    AndMember,
    /// Members: Nothing.
    NoMember,
    /// Member: `;`.
    LoneMember,
    /// Member: Modifiers MemberRest.
    ModifiedMember,
    /// MemberRest: `void` Identifier MethodRest.
    VoidMember,
    /// MemberRest: PrimitiveType Brackets Identifier FieldOrMethod.
    PrimitiveMember,
    /// MemberRest: Identifier AfterMemberName.
    NamedMember,
    /// AfterMemberName: Parameters Throws ConstructorBody.
    ConstructorOf,
    /// AfterMemberName: `.` Identifier NameTail Brackets Identifier FieldOrMethod.
    DottedMember,
    /// AfterMemberName: `[` `]` Identifier FieldOrMethod.
    ArrayMember,
    /// AfterMemberName: Identifier FieldOrMethod.
    PlainMember,
    /// FieldOrMethod: MethodRest.
    MethodOf,
    /// FieldOrMethod: Initializer MoreVariables `;`.
    FieldOf,
    /// MethodRest: Parameters Throws MethodBody.
    MethodRestOf,
    /// MethodBody: Block.
    SomeMethodBody,
    /// MethodBody: `;`.
    NoMethodBody,
    /// ConstructorBody: `{` ConstructorStart `}`.
    SomeConstructorBody,
    /// ConstructorBody: `;`.
    NoConstructorBody,
    /// ConstructorStart: `super` AfterSuper.
    SuperStart,
    /// ConstructorStart: PlainStatement Statements.
    PlainStart,
    /// ConstructorStart: Nothing.
    EmptyStart,
    /// AfterSuper: Arguments `;` Statements.
    SuperCall,
    /// AfterSuper: `.` Identifier Arguments Suffixes StatementTail `;` Statements.
    SuperMethodStart,
    /// Throws: `throws` Names.
    SomeThrows,
    /// Throws: Nothing.
    NoThrows,
    /// Parameters: `(` FirstParameter `)`.
    ParametersOf,
    /// FirstParameter: VariableModifiers Type ParameterName MoreParameters.
    SomeParameter,
    /// FirstParameter: Nothing.
    NoParameter,
    /// ParameterName: Identifier.
    DeclaredName,
    /// ParameterName: `this`.
    ReceiverName,
    /// MoreParameters: `,` VariableModifiers Type Identifier MoreParameters.
    AndParameter,
    /// MoreParameters: Nothing.
    LastParameter,
    /// Type: PrimitiveType Brackets.
    PrimitiveType,
    /// Type: Name Brackets.
    NamedType,
    /// Brackets: `[` `]`.
    SomeBrackets,
    /// Brackets: Nothing.
    NoBrackets,
    /// Initializer: `=` Expression.
    SomeInitializer,
    /// Initializer: Nothing.
    NoInitializer,
    /// MoreVariables: `,` Identifier Initializer MoreVariables.
    AndVariable,
    /// MoreVariables: Nothing.
    LastVariable,
    /// Variables: Identifier Initializer MoreVariables.
    VariablesOf,
    /// InterfaceMembers: InterfaceMember InterfaceMembers.
    AndInterfaceMember,
    /// InterfaceMembers: Nothing.
    NoInterfaceMember,
    /// InterfaceMember: `;`.
    LoneInterfaceMember,
    /// InterfaceMember: Modifiers ResultType Identifier Parameters Throws `;`.
    HeadOf,
    /// ResultType: Type.
    TypeResult,
    /// ResultType: `void`.
    VoidResult,
    /// Annotations: Annotation Annotations.
    SomeAnnotations,
    /// Annotations: Nothing.
    NoAnnotations,
    /// Annotation: `@` Name AnnotationArguments.
    AnnotationOf,
    /// AnnotationArguments: `(` AnnotationValues `)`.
    SomeAnnotationArguments,
    /// AnnotationArguments: Nothing.
    NoAnnotationArguments,
    /// AnnotationValues: Identifier AfterAnnotationName.
    NamedValues,
    /// AnnotationValues: OtherValue.
    OneValue,
    /// AnnotationValues: Nothing.
    NoValues,
    /// AfterAnnotationName: `=` Value MorePairs.
    PairOf,
    /// AfterAnnotationName: Call Suffixes Steps Operations Choice.
    NameValue,
    /// MorePairs: `,` Identifier `=` Value MorePairs.
    AndPair,
    /// MorePairs: Nothing.
    LastPair,
    /// Value: Identifier Call Suffixes Steps Operations Choice.
    ValueOfName,
    /// Value: OtherValue.
    ValueOf,
    /// OtherValue: OtherUnary Operations Choice.
    ConditionValue,
    /// OtherValue: Annotation.
    AnnotationValue,
    /// OtherValue: `{` ValueList `}`.
    ListValue,
    /// ValueList: Value MoreValues.
    SomeValues,
    /// ValueList: `,`.
    OnlyComma,
    /// ValueList: Nothing.
    EmptyList,
    /// MoreValues: `,` AfterComma.
    AndComma,
    /// MoreValues: Nothing.
    LastValue,
    /// AfterComma: Value MoreValues.
    AndValue,
    /// AfterComma: Nothing.
    TrailingComma,
}

/// The productions of statements, each with its right side; of several operators one stands for all.
#[derive(Copy, Clone)]
pub enum StatementProduction {
    /// Block: `{` Statements `}`.
    BlockOf,
    /// Statements: Statement Statements.
    AndStatement,
    /// Statements: Nothing.
    NoStatement,
    /// Statement: `super` `.` Identifier Arguments Suffixes StatementTail `;`.
    SuperStatement,
    /// Statement: PlainStatement.
    StatementOf,
    /// PlainStatement: Identifier AfterStatementName `;`.
    NamedStatement,
    /// PlainStatement: PlainLocal `;`.
    LocalStatement,
    /// PlainStatement: OtherStatement.
    OtherStatementOf,
    /// PlainLocal: PrimitiveType Brackets Variables.
    PrimitiveLocal,
    /// PlainLocal: `final` FinalModifiers Type Variables.
    FinalLocal,
    /// PlainLocal: Annotation VariableModifiers Type Variables.
    AnnotatedLocal,
    /// AfterStatementName: `.` Identifier AfterStatementName.
    StatementDot,
    /// AfterStatementName: Variables.
    NamedLocal,
    /// AfterStatementName: `[` AfterStatementBracket.
    StatementBracket,
    /// AfterStatementName: Arguments Suffixes StatementTail.
    StatementCall,
    /// AfterStatementName: SomeAction.
    StatementAction,
    /// AfterStatementBracket: `]` Variables.
    ArrayLocal,
    /// AfterStatementBracket: Expression `]` Suffixes StatementTail.
    StatementIndex,
    /// Substatement: Identifier Call Suffixes StatementTail `;`.
    NamedSubstatement,
    /// Substatement: `super` `.` Identifier Arguments Suffixes StatementTail `;`.
    SuperSubstatement,
    /// Substatement: OtherStatement.
    OtherSubstatement,
    /// OtherStatement: Block.
    BlockStatement,
    /// OtherStatement: `;`.
    EmptyStatement,
    /// OtherStatement: OtherAction `;`.
    ActionStatement,
    /// OtherStatement: `if` `(` Expression `)` Substatement ElsePart.
    IfStatement,
    /// OtherStatement: `while` `(` Expression `)` Substatement.
    WhileStatement,
    /// OtherStatement: `do` Substatement `while` `(` Expression `)` `;`.
    DoStatement,
    /// OtherStatement: `for` `(` ForStart `;` OptionalExpression `;` ForUpdate `)` Substatement.
    ForStatement,
    /// OtherStatement: `try` TryRest.
    TryStatement,
    /// OtherStatement: `return` OptionalExpression `;`.
    ReturnStatement,
    /// OtherStatement: `throw` Expression `;`.
    ThrowStatement,
    /// OtherStatement: `break` `;`.
    BreakStatement,
    /// OtherStatement: `continue` `;`.
    ContinueStatement,
    /// ElsePart: `else` Substatement.
    SomeElse,
    /// ElsePart: Nothing.
    NoElse,
    /// OptionalExpression: Expression.
    SomeExpression,
    /// OptionalExpression: Nothing.
    NoExpression,
    /// ForStart: Identifier AfterForName.
    ForName,
    /// ForStart: PlainLocal.
    ForLocal,
    /// ForStart: `super` `.` Identifier Arguments Suffixes StatementTail MoreActions.
    ForSuper,
    /// ForStart: OtherAction MoreActions.
    ForAction,
    /// ForStart: Nothing.
    NoForStart,
    /// AfterForName: `.` Identifier AfterForName.
    ForDot,
    /// AfterForName: Variables.
    ForNamed,
    /// AfterForName: `[` AfterForBracket.
    ForBracket,
    /// AfterForName: Arguments Suffixes StatementTail MoreActions.
    ForCall,
    /// AfterForName: SomeAction MoreActions.
    ForNamedAction,
    /// AfterForBracket: `]` Variables.
    ForArray,
    /// AfterForBracket: Expression `]` Suffixes StatementTail MoreActions.
    ForIndex,
    /// ForUpdate: Action MoreActions.
    SomeUpdate,
    /// ForUpdate: Nothing.
    NoUpdate,
    /// MoreActions: `,` Action MoreActions.
    AndAction,
    /// MoreActions: Nothing.
    LastAction,
    /// TryRest: Block Handlers.
    PlainTry,
    /// TryRest: `(` Resource MoreResources `)` Block Catches OptionalFinally.
    ResourceTry,
    /// Handlers: Catch Catches OptionalFinally.
    CatchHandlers,
    /// Handlers: Finally.
    OnlyFinally,
    /// Catches: Catch Catches.
    AndCatch,
    /// Catches: Nothing.
    NoCatch,
    /// OptionalFinally: Finally.
    SomeFinally,
    /// OptionalFinally: Nothing.
    NoFinally,
    /// Finally: `finally` Block.
    FinallyOf,
    /// Catch: `catch` `(` VariableModifiers Name CatchNames Identifier `)` Block.
    CatchOf,
    /// CatchNames: `|` Name CatchNames.
    AndCatchName,
    /// CatchNames: Nothing.
    LastCatchName,
    /// Resource: VariableModifiers Name Identifier `=` Expression.
    ResourceOf,
    /// MoreResources: `;` AfterResource.
    ResourceSemicolon,
    /// MoreResources: Nothing.
    LastResource,
    /// AfterResource: Resource MoreResources.
    AndResource,
    /// AfterResource: Nothing.
    TrailingSemicolon,
    /// Action: Identifier Call Suffixes StatementTail.
    NamedAction,
    /// Action: `super` `.` Identifier Arguments Suffixes StatementTail.
    SuperAction,
    /// Action: OtherAction.
    ActionOf,
    /// OtherAction: `++` Unary.
    StepAction,
    /// OtherAction: `(` Expression `)` Suffixes StatementTail.
    ParenthesizedAction,
    /// OtherAction: PlainPrimary StatementTail.
    PrimaryAction,
    /// StatementTail: SomeAction.
    ActionTail,
    /// StatementTail: Nothing.
    CallTail,
    /// SomeAction: `=` Expression.
    AssignAction,
    /// SomeAction: `+=` Expression.
    CompoundAction,
    /// SomeAction: `++` Steps.
    StepsAction,
}

/// The productions of expressions, each with its right side; of several operators one stands for all.
#[derive(Copy, Clone)]
pub enum ExpressionProduction {
    /// Expression: Identifier Call Suffixes ExpressionTail.
    NameExpression,
    /// Expression: OtherExpression.
    ExpressionOf,
    /// OtherExpression: Prefixed Operations Choice.
    PrefixedExpression,
    /// OtherExpression: `(` AfterOpenExpression.
    OpenExpression,
    /// OtherExpression: OtherPrimary ExpressionTail.
    PrimaryExpression,
    /// AfterOpenExpression: PrimitiveType PrimitiveCast Operations Choice.
    PrimitiveCastExpression,
    /// AfterOpenExpression: Inside AfterInsideExpression.
    InsideExpression,
    /// AfterInsideExpression: Unsigned Operations Choice.
    CastExpression,
    /// AfterInsideExpression: Suffixes ExpressionTail.
    ParenthesesExpression,
    /// ExpressionTail: SomeTail.
    SomeTailOf,
    /// ExpressionTail: Nothing.
    NoTail,
    /// SomeTail: `=` Expression.
    AssignTail,
    /// SomeTail: `+=` Expression.
    CompoundTail,
    /// SomeTail: `++` Steps Operations Choice.
    StepsTail,
    /// SomeTail: TightOperation Operations Choice.
    TightTail,
    /// SomeTail: LooseOperations Choice.
    LooseTail,
    /// SomeTail: SomeChoice.
    ChoiceTail,
    /// Choice: SomeChoice.
    ChoiceOf,
    /// Choice: Nothing.
    NoChoice,
    /// SomeChoice: `?` Expression `:` Condition.
    Conditional,
    /// Condition: Unary Operations Choice.
    ConditionOf,
    /// Operations: TightOperation Operations.
    AndTight,
    /// Operations: LooseOperations.
    AndLoose,
    /// Operations: Nothing.
    NoOperation,
    /// TightOperation: `+` Unary.
    SignOperation,
    /// TightOperation: `*` Unary.
    StarOperation,
    /// TightOperation: `/` Unary.
    TightBinary,
    /// LooseOperations: `<` Unary Operations.
    LooseBinary,
    /// LooseOperations: `|` Unary Operations.
    BarBinary,
    /// LooseOperations: `instanceof` Type AfterInstance.
    InstanceTest,
    /// AfterInstance: LooseOperations.
    SomeLoose,
    /// AfterInstance: Nothing.
    NoLoose,
    /// Unary: Identifier Call Suffixes Steps.
    NameUnary,
    /// Unary: OtherUnary.
    UnaryOf,
    /// OtherUnary: Prefixed.
    PrefixedUnary,
    /// OtherUnary: `(` AfterOpenUnary.
    OpenUnary,
    /// OtherUnary: OtherPrimary Steps.
    PrimaryUnary,
    /// Prefixed: `+` Unary.
    SignPrefix,
    /// Prefixed: `++` Unary.
    StepPrefix,
    /// Prefixed: `!` Unary.
    NotPrefix,
    /// AfterOpenUnary: PrimitiveType PrimitiveCast.
    PrimitiveCastUnary,
    /// AfterOpenUnary: Inside AfterInside.
    InsideUnary,
    /// Unsigned: `!` Unary.
    NotUnsigned,
    /// Unsigned: `(` AfterOpenUnsigned.
    OpenUnsigned,
    /// Unsigned: Identifier Call Suffixes Steps.
    NameUnsigned,
    /// Unsigned: OtherPrimary Steps.
    PrimaryUnsigned,
    /// AfterOpenUnsigned: PrimitiveType `[` `]` `)` Unsigned.
    PrimitiveArrayCast,
    /// AfterOpenUnsigned: Inside AfterInside.
    InsideUnsigned,
    /// PrimitiveCast: `)` Unary.
    ValueCast,
    /// PrimitiveCast: `[` `]` `)` Unsigned.
    ArrayCast,
    /// Inside: Identifier AfterInsideName.
    InsideName,
    /// Inside: OtherExpression `)`.
    InsideOther,
    /// AfterInsideName: `.` Identifier AfterInsideName.
    InsideDot,
    /// AfterInsideName: `)`.
    BareName,
    /// AfterInsideName: `[` AfterInsideBracket.
    InsideBracket,
    /// AfterInsideName: Arguments Suffixes ExpressionTail `)`.
    InsideCall,
    /// AfterInsideName: SomeTail `)`.
    InsideTail,
    /// AfterInsideBracket: `]` `)`.
    ArrayTypeInside,
    /// AfterInsideBracket: Expression `]` Suffixes ExpressionTail `)`.
    InsideIndex,
    /// AfterInside: Unsigned.
    CastOf,
    /// AfterInside: Suffixes Steps.
    ParenthesesOf,
    /// Steps: `++` Steps.
    AndStep,
    /// Steps: Nothing.
    NoStep,
    /// Suffixes: `.` Identifier Call Suffixes.
    FieldSuffix,
    /// Suffixes: `[` Expression `]` Suffixes.
    IndexSuffix,
    /// Suffixes: Nothing.
    NoSuffix,
    /// Call: Arguments.
    SomeCall,
    /// Call: Nothing.
    NoCall,
    /// Arguments: `(` ArgumentList `)`.
    ArgumentsOf,
    /// ArgumentList: Expression MoreArguments.
    SomeArguments,
    /// ArgumentList: Nothing.
    NoArgument,
    /// MoreArguments: `,` Expression MoreArguments.
    AndArgument,
    /// MoreArguments: Nothing.
    LastArgument,
    /// OtherPrimary: `super` `.` Identifier Arguments Suffixes.
    SuperPrimary,
    /// OtherPrimary: PlainPrimary.
    OtherPrimaryOf,
    /// PlainPrimary: Literal Suffixes.
    LiteralPrimary,
    /// PlainPrimary: `this` Suffixes.
    ThisPrimary,
    /// PlainPrimary: `new` Creator.
    NewPrimary,
    /// Creator: PrimitiveType `[` Expression `]` AfterArray.
    PrimitiveArray,
    /// Creator: Name CreatorRest.
    NamedCreator,
    /// CreatorRest: Arguments Suffixes.
    NewObject,
    /// CreatorRest: `[` Expression `]` AfterArray.
    NewArray,
    /// AfterArray: `.` Identifier Call Suffixes.
    ArrayField,
    /// AfterArray: Nothing.
    NoArrayField,
}

/// The productions of the grammar.
#[derive(Copy, Clone)]
pub enum Production {
    /// One of declarations and annotations.
    Declare(DeclarationProduction),
    /// One of statements.
    State(StatementProduction),
    /// One of expressions.
    Compute(ExpressionProduction),
}
