ghost use Rattle.std.specs.Prelude.{◌≡◌};
ghost use Rattle.java_grammar.specs.Choices.{productions_of, default_production};

use java_syntax::Production::{Compute, Declare, State};
use java_syntax::{
    DeclarationProduction as Declaration, ExpressionProduction as Expression, Production,
    StatementProduction as Statement, Symbol,
};

/// The productions of a symbol.
pub fn productions(symbol: Symbol) -> &'static [Production]
    ensures { result.now ≡ productions_of symbol }
{
    match symbol {
        Symbol::CompilationUnit => &[Declare(Declaration::UnitOf)],
        Symbol::StubFile => &[Declare(Declaration::StubOf)],
        Symbol::Sections => &[
            Declare(Declaration::AndSection),
            Declare(Declaration::NoSection),
        ],
        Symbol::Section => &[Declare(Declaration::SectionOf)],
        Symbol::OptionalPackage => &[
            Declare(Declaration::SomePackage),
            Declare(Declaration::NoPackage),
        ],
        Symbol::Imports => &[
            Declare(Declaration::AndImport),
            Declare(Declaration::NoImport),
        ],
        Symbol::Import => &[Declare(Declaration::ImportOf)],
        Symbol::ImportTail => &[
            Declare(Declaration::ImportDot),
            Declare(Declaration::ImportEnd),
        ],
        Symbol::ImportStep => &[
            Declare(Declaration::ImportName),
            Declare(Declaration::ImportAll),
        ],
        Symbol::Name => &[Declare(Declaration::NameOf)],
        Symbol::NameTail => &[Declare(Declaration::NameDot), Declare(Declaration::NameEnd)],
        Symbol::Names => &[Declare(Declaration::NamesOf)],
        Symbol::MoreNames => &[
            Declare(Declaration::AndName),
            Declare(Declaration::LastName),
        ],
        Symbol::Types => &[Declare(Declaration::AndType), Declare(Declaration::NoType)],
        Symbol::TypeDeclaration => &[
            Declare(Declaration::LoneSemicolon),
            Declare(Declaration::ModifiedType),
        ],
        Symbol::TypeKind => &[
            Declare(Declaration::ClassOf),
            Declare(Declaration::InterfaceOf),
        ],
        Symbol::Superclass => &[
            Declare(Declaration::SomeSuperclass),
            Declare(Declaration::NoSuperclass),
        ],
        Symbol::Superinterfaces => &[
            Declare(Declaration::SomeSuperinterfaces),
            Declare(Declaration::NoSuperinterface),
        ],
        Symbol::Interfaces => &[
            Declare(Declaration::SomeInterfaces),
            Declare(Declaration::NoInterface),
        ],
        Symbol::Modifiers => &[
            Declare(Declaration::AndAnnotation),
            Declare(Declaration::AndPublic),
            Declare(Declaration::AndProtected),
            Declare(Declaration::AndPrivate),
            Declare(Declaration::AndStatic),
            Declare(Declaration::AndFinal),
            Declare(Declaration::AndAbstract),
            Declare(Declaration::NoModifier),
        ],
        Symbol::VariableModifiers => &[
            Declare(Declaration::VariableAnnotation),
            Declare(Declaration::VariableFinal),
            Declare(Declaration::NoVariableModifier),
        ],
        Symbol::FinalModifiers => &[
            Declare(Declaration::FinalAnnotation),
            Declare(Declaration::NoFinalModifier),
        ],
        Symbol::Members => &[
            Declare(Declaration::AndMember),
            Declare(Declaration::NoMember),
        ],
        Symbol::Member => &[
            Declare(Declaration::LoneMember),
            Declare(Declaration::ModifiedMember),
        ],
        Symbol::MemberRest => &[
            Declare(Declaration::VoidMember),
            Declare(Declaration::PrimitiveMember),
            Declare(Declaration::NamedMember),
        ],
        Symbol::AfterMemberName => &[
            Declare(Declaration::ConstructorOf),
            Declare(Declaration::DottedMember),
            Declare(Declaration::ArrayMember),
            Declare(Declaration::PlainMember),
        ],
        Symbol::FieldOrMethod => &[
            Declare(Declaration::MethodOf),
            Declare(Declaration::FieldOf),
        ],
        Symbol::MethodRest => &[Declare(Declaration::MethodRestOf)],
        Symbol::MethodBody => &[
            Declare(Declaration::SomeMethodBody),
            Declare(Declaration::NoMethodBody),
        ],
        Symbol::ConstructorBody => &[
            Declare(Declaration::SomeConstructorBody),
            Declare(Declaration::NoConstructorBody),
        ],
        Symbol::ConstructorStart => &[
            Declare(Declaration::SuperStart),
            Declare(Declaration::PlainStart),
            Declare(Declaration::EmptyStart),
        ],
        Symbol::AfterSuper => &[
            Declare(Declaration::SuperCall),
            Declare(Declaration::SuperMethodStart),
        ],
        Symbol::Throws => &[
            Declare(Declaration::SomeThrows),
            Declare(Declaration::NoThrows),
        ],
        Symbol::Parameters => &[Declare(Declaration::ParametersOf)],
        Symbol::FirstParameter => &[
            Declare(Declaration::SomeParameter),
            Declare(Declaration::NoParameter),
        ],
        Symbol::ParameterName => &[
            Declare(Declaration::DeclaredName),
            Declare(Declaration::ReceiverName),
        ],
        Symbol::MoreParameters => &[
            Declare(Declaration::AndParameter),
            Declare(Declaration::LastParameter),
        ],
        Symbol::Type => &[
            Declare(Declaration::PrimitiveType),
            Declare(Declaration::NamedType),
        ],
        Symbol::Brackets => &[
            Declare(Declaration::SomeBrackets),
            Declare(Declaration::NoBrackets),
        ],
        Symbol::Initializer => &[
            Declare(Declaration::SomeInitializer),
            Declare(Declaration::NoInitializer),
        ],
        Symbol::MoreVariables => &[
            Declare(Declaration::AndVariable),
            Declare(Declaration::LastVariable),
        ],
        Symbol::Variables => &[Declare(Declaration::VariablesOf)],
        Symbol::InterfaceMembers => &[
            Declare(Declaration::AndInterfaceMember),
            Declare(Declaration::NoInterfaceMember),
        ],
        Symbol::InterfaceMember => &[
            Declare(Declaration::LoneInterfaceMember),
            Declare(Declaration::HeadOf),
        ],
        Symbol::ResultType => &[
            Declare(Declaration::TypeResult),
            Declare(Declaration::VoidResult),
        ],
        Symbol::Annotations => &[
            Declare(Declaration::SomeAnnotations),
            Declare(Declaration::NoAnnotations),
        ],
        Symbol::Annotation => &[Declare(Declaration::AnnotationOf)],
        Symbol::AnnotationArguments => &[
            Declare(Declaration::SomeAnnotationArguments),
            Declare(Declaration::NoAnnotationArguments),
        ],
        Symbol::AnnotationValues => &[
            Declare(Declaration::NamedValues),
            Declare(Declaration::OneValue),
            Declare(Declaration::NoValues),
        ],
        Symbol::AfterAnnotationName => &[
            Declare(Declaration::PairOf),
            Declare(Declaration::NameValue),
        ],
        Symbol::MorePairs => &[
            Declare(Declaration::AndPair),
            Declare(Declaration::LastPair),
        ],
        Symbol::Value => &[
            Declare(Declaration::ValueOfName),
            Declare(Declaration::ValueOf),
        ],
        Symbol::OtherValue => &[
            Declare(Declaration::ConditionValue),
            Declare(Declaration::AnnotationValue),
            Declare(Declaration::ListValue),
        ],
        Symbol::ValueList => &[
            Declare(Declaration::SomeValues),
            Declare(Declaration::OnlyComma),
            Declare(Declaration::EmptyList),
        ],
        Symbol::MoreValues => &[
            Declare(Declaration::AndComma),
            Declare(Declaration::LastValue),
        ],
        Symbol::AfterComma => &[
            Declare(Declaration::AndValue),
            Declare(Declaration::TrailingComma),
        ],
        Symbol::Block => &[State(Statement::BlockOf)],
        Symbol::Statements => &[
            State(Statement::AndStatement),
            State(Statement::NoStatement),
        ],
        Symbol::Statement => &[
            State(Statement::SuperStatement),
            State(Statement::StatementOf),
        ],
        Symbol::PlainStatement => &[
            State(Statement::NamedStatement),
            State(Statement::LocalStatement),
            State(Statement::OtherStatementOf),
        ],
        Symbol::PlainLocal => &[
            State(Statement::PrimitiveLocal),
            State(Statement::FinalLocal),
            State(Statement::AnnotatedLocal),
        ],
        Symbol::AfterStatementName => &[
            State(Statement::StatementDot),
            State(Statement::NamedLocal),
            State(Statement::StatementBracket),
            State(Statement::StatementCall),
            State(Statement::StatementAction),
        ],
        Symbol::AfterStatementBracket => &[
            State(Statement::ArrayLocal),
            State(Statement::StatementIndex),
        ],
        Symbol::Substatement => &[
            State(Statement::NamedSubstatement),
            State(Statement::SuperSubstatement),
            State(Statement::OtherSubstatement),
        ],
        Symbol::OtherStatement => &[
            State(Statement::BlockStatement),
            State(Statement::EmptyStatement),
            State(Statement::ActionStatement),
            State(Statement::IfStatement),
            State(Statement::WhileStatement),
            State(Statement::DoStatement),
            State(Statement::ForStatement),
            State(Statement::TryStatement),
            State(Statement::ReturnStatement),
            State(Statement::ThrowStatement),
            State(Statement::BreakStatement),
            State(Statement::ContinueStatement),
        ],
        Symbol::ElsePart => &[State(Statement::SomeElse), State(Statement::NoElse)],
        Symbol::OptionalExpression => &[
            State(Statement::SomeExpression),
            State(Statement::NoExpression),
        ],
        Symbol::ForStart => &[
            State(Statement::ForName),
            State(Statement::ForLocal),
            State(Statement::ForSuper),
            State(Statement::ForAction),
            State(Statement::NoForStart),
        ],
        Symbol::AfterForName => &[
            State(Statement::ForDot),
            State(Statement::ForNamed),
            State(Statement::ForBracket),
            State(Statement::ForCall),
            State(Statement::ForNamedAction),
        ],
        Symbol::AfterForBracket => &[State(Statement::ForArray), State(Statement::ForIndex)],
        Symbol::ForUpdate => &[State(Statement::SomeUpdate), State(Statement::NoUpdate)],
        Symbol::MoreActions => &[State(Statement::AndAction), State(Statement::LastAction)],
        Symbol::TryRest => &[State(Statement::PlainTry), State(Statement::ResourceTry)],
        Symbol::Handlers => &[
            State(Statement::CatchHandlers),
            State(Statement::OnlyFinally),
        ],
        Symbol::Catches => &[State(Statement::AndCatch), State(Statement::NoCatch)],
        Symbol::OptionalFinally => &[State(Statement::SomeFinally), State(Statement::NoFinally)],
        Symbol::Finally => &[State(Statement::FinallyOf)],
        Symbol::Catch => &[State(Statement::CatchOf)],
        Symbol::CatchNames => &[
            State(Statement::AndCatchName),
            State(Statement::LastCatchName),
        ],
        Symbol::Resource => &[State(Statement::ResourceOf)],
        Symbol::MoreResources => &[
            State(Statement::ResourceSemicolon),
            State(Statement::LastResource),
        ],
        Symbol::AfterResource => &[
            State(Statement::AndResource),
            State(Statement::TrailingSemicolon),
        ],
        Symbol::Action => &[
            State(Statement::NamedAction),
            State(Statement::SuperAction),
            State(Statement::ActionOf),
        ],
        Symbol::OtherAction => &[
            State(Statement::StepAction),
            State(Statement::ParenthesizedAction),
            State(Statement::PrimaryAction),
        ],
        Symbol::StatementTail => &[State(Statement::ActionTail), State(Statement::CallTail)],
        Symbol::SomeAction => &[
            State(Statement::AssignAction),
            State(Statement::CompoundAction),
            State(Statement::StepsAction),
        ],
        Symbol::Expression => &[
            Compute(Expression::NameExpression),
            Compute(Expression::ExpressionOf),
        ],
        Symbol::OtherExpression => &[
            Compute(Expression::PrefixedExpression),
            Compute(Expression::OpenExpression),
            Compute(Expression::PrimaryExpression),
        ],
        Symbol::AfterOpenExpression => &[
            Compute(Expression::PrimitiveCastExpression),
            Compute(Expression::InsideExpression),
        ],
        Symbol::AfterInsideExpression => &[
            Compute(Expression::CastExpression),
            Compute(Expression::ParenthesesExpression),
        ],
        Symbol::ExpressionTail => &[Compute(Expression::SomeTailOf), Compute(Expression::NoTail)],
        Symbol::SomeTail => &[
            Compute(Expression::AssignTail),
            Compute(Expression::CompoundTail),
            Compute(Expression::StepsTail),
            Compute(Expression::TightTail),
            Compute(Expression::LooseTail),
            Compute(Expression::ChoiceTail),
        ],
        Symbol::Choice => &[Compute(Expression::ChoiceOf), Compute(Expression::NoChoice)],
        Symbol::SomeChoice => &[Compute(Expression::Conditional)],
        Symbol::Condition => &[Compute(Expression::ConditionOf)],
        Symbol::Operations => &[
            Compute(Expression::AndTight),
            Compute(Expression::AndLoose),
            Compute(Expression::NoOperation),
        ],
        Symbol::TightOperation => &[
            Compute(Expression::SignOperation),
            Compute(Expression::StarOperation),
            Compute(Expression::TightBinary),
        ],
        Symbol::LooseOperations => &[
            Compute(Expression::LooseBinary),
            Compute(Expression::BarBinary),
            Compute(Expression::InstanceTest),
        ],
        Symbol::AfterInstance => &[Compute(Expression::SomeLoose), Compute(Expression::NoLoose)],
        Symbol::Unary => &[Compute(Expression::NameUnary), Compute(Expression::UnaryOf)],
        Symbol::OtherUnary => &[
            Compute(Expression::PrefixedUnary),
            Compute(Expression::OpenUnary),
            Compute(Expression::PrimaryUnary),
        ],
        Symbol::Prefixed => &[
            Compute(Expression::SignPrefix),
            Compute(Expression::StepPrefix),
            Compute(Expression::NotPrefix),
        ],
        Symbol::AfterOpenUnary => &[
            Compute(Expression::PrimitiveCastUnary),
            Compute(Expression::InsideUnary),
        ],
        Symbol::Unsigned => &[
            Compute(Expression::NotUnsigned),
            Compute(Expression::OpenUnsigned),
            Compute(Expression::NameUnsigned),
            Compute(Expression::PrimaryUnsigned),
        ],
        Symbol::AfterOpenUnsigned => &[
            Compute(Expression::PrimitiveArrayCast),
            Compute(Expression::InsideUnsigned),
        ],
        Symbol::PrimitiveCast => &[
            Compute(Expression::ValueCast),
            Compute(Expression::ArrayCast),
        ],
        Symbol::Inside => &[
            Compute(Expression::InsideName),
            Compute(Expression::InsideOther),
        ],
        Symbol::AfterInsideName => &[
            Compute(Expression::InsideDot),
            Compute(Expression::BareName),
            Compute(Expression::InsideBracket),
            Compute(Expression::InsideCall),
            Compute(Expression::InsideTail),
        ],
        Symbol::AfterInsideBracket => &[
            Compute(Expression::ArrayTypeInside),
            Compute(Expression::InsideIndex),
        ],
        Symbol::AfterInside => &[
            Compute(Expression::CastOf),
            Compute(Expression::ParenthesesOf),
        ],
        Symbol::Steps => &[Compute(Expression::AndStep), Compute(Expression::NoStep)],
        Symbol::Suffixes => &[
            Compute(Expression::FieldSuffix),
            Compute(Expression::IndexSuffix),
            Compute(Expression::NoSuffix),
        ],
        Symbol::Call => &[Compute(Expression::SomeCall), Compute(Expression::NoCall)],
        Symbol::Arguments => &[Compute(Expression::ArgumentsOf)],
        Symbol::ArgumentList => &[
            Compute(Expression::SomeArguments),
            Compute(Expression::NoArgument),
        ],
        Symbol::MoreArguments => &[
            Compute(Expression::AndArgument),
            Compute(Expression::LastArgument),
        ],
        Symbol::OtherPrimary => &[
            Compute(Expression::SuperPrimary),
            Compute(Expression::OtherPrimaryOf),
        ],
        Symbol::PlainPrimary => &[
            Compute(Expression::LiteralPrimary),
            Compute(Expression::ThisPrimary),
            Compute(Expression::NewPrimary),
        ],
        Symbol::Creator => &[
            Compute(Expression::PrimitiveArray),
            Compute(Expression::NamedCreator),
        ],
        Symbol::CreatorRest => &[
            Compute(Expression::NewObject),
            Compute(Expression::NewArray),
        ],
        Symbol::AfterArray => &[
            Compute(Expression::ArrayField),
            Compute(Expression::NoArrayField),
        ],
    }
}

/// The production by which the symbol derives no token, where it has one.
pub fn default_of(symbol: Symbol) -> Option<Production>
    ensures { result ≡ default_production symbol }
{
    match symbol {
        Symbol::CompilationUnit => Some(Declare(Declaration::UnitOf)),
        Symbol::StubFile => Some(Declare(Declaration::StubOf)),
        Symbol::Sections => Some(Declare(Declaration::NoSection)),
        Symbol::OptionalPackage => Some(Declare(Declaration::NoPackage)),
        Symbol::Imports => Some(Declare(Declaration::NoImport)),
        Symbol::ImportTail => Some(Declare(Declaration::ImportEnd)),
        Symbol::NameTail => Some(Declare(Declaration::NameEnd)),
        Symbol::MoreNames => Some(Declare(Declaration::LastName)),
        Symbol::Types => Some(Declare(Declaration::NoType)),
        Symbol::Superclass => Some(Declare(Declaration::NoSuperclass)),
        Symbol::Superinterfaces => Some(Declare(Declaration::NoSuperinterface)),
        Symbol::Interfaces => Some(Declare(Declaration::NoInterface)),
        Symbol::Modifiers => Some(Declare(Declaration::NoModifier)),
        Symbol::VariableModifiers => Some(Declare(Declaration::NoVariableModifier)),
        Symbol::FinalModifiers => Some(Declare(Declaration::NoFinalModifier)),
        Symbol::Members => Some(Declare(Declaration::NoMember)),
        Symbol::ConstructorStart => Some(Declare(Declaration::EmptyStart)),
        Symbol::Throws => Some(Declare(Declaration::NoThrows)),
        Symbol::FirstParameter => Some(Declare(Declaration::NoParameter)),
        Symbol::MoreParameters => Some(Declare(Declaration::LastParameter)),
        Symbol::Brackets => Some(Declare(Declaration::NoBrackets)),
        Symbol::Initializer => Some(Declare(Declaration::NoInitializer)),
        Symbol::MoreVariables => Some(Declare(Declaration::LastVariable)),
        Symbol::InterfaceMembers => Some(Declare(Declaration::NoInterfaceMember)),
        Symbol::Annotations => Some(Declare(Declaration::NoAnnotations)),
        Symbol::AnnotationArguments => Some(Declare(Declaration::NoAnnotationArguments)),
        Symbol::AnnotationValues => Some(Declare(Declaration::NoValues)),
        Symbol::AfterAnnotationName => Some(Declare(Declaration::NameValue)),
        Symbol::MorePairs => Some(Declare(Declaration::LastPair)),
        Symbol::ValueList => Some(Declare(Declaration::EmptyList)),
        Symbol::MoreValues => Some(Declare(Declaration::LastValue)),
        Symbol::AfterComma => Some(Declare(Declaration::TrailingComma)),
        Symbol::Statements => Some(State(Statement::NoStatement)),
        Symbol::ElsePart => Some(State(Statement::NoElse)),
        Symbol::OptionalExpression => Some(State(Statement::NoExpression)),
        Symbol::ForStart => Some(State(Statement::NoForStart)),
        Symbol::ForUpdate => Some(State(Statement::NoUpdate)),
        Symbol::MoreActions => Some(State(Statement::LastAction)),
        Symbol::Catches => Some(State(Statement::NoCatch)),
        Symbol::OptionalFinally => Some(State(Statement::NoFinally)),
        Symbol::CatchNames => Some(State(Statement::LastCatchName)),
        Symbol::MoreResources => Some(State(Statement::LastResource)),
        Symbol::AfterResource => Some(State(Statement::TrailingSemicolon)),
        Symbol::StatementTail => Some(State(Statement::CallTail)),
        Symbol::AfterInsideExpression => Some(Compute(Expression::ParenthesesExpression)),
        Symbol::ExpressionTail => Some(Compute(Expression::NoTail)),
        Symbol::Choice => Some(Compute(Expression::NoChoice)),
        Symbol::Operations => Some(Compute(Expression::NoOperation)),
        Symbol::AfterInstance => Some(Compute(Expression::NoLoose)),
        Symbol::AfterInside => Some(Compute(Expression::ParenthesesOf)),
        Symbol::Steps => Some(Compute(Expression::NoStep)),
        Symbol::Suffixes => Some(Compute(Expression::NoSuffix)),
        Symbol::Call => Some(Compute(Expression::NoCall)),
        Symbol::ArgumentList => Some(Compute(Expression::NoArgument)),
        Symbol::MoreArguments => Some(Compute(Expression::LastArgument)),
        Symbol::AfterArray => Some(Compute(Expression::NoArrayField)),
        _ => None,
    }
}
