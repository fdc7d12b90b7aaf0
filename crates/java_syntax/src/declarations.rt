ghost use Rattle.std.specs.Prelude.{◌≡◌};
ghost use Rattle.java_syntax.specs.Table.{body_of};
ghost use Rattle.java_syntax.specs.declared.productions.Production.TheVariants.{Declare};

use crate::actions::{
    Action, AnnotationAction, DeclarationAction, ExpressionAction, StatementAction, TokenAction,
};
use crate::productions::DeclarationProduction;
use crate::symbols::{Item, Symbol};
use crate::words::{Effect, Word};

/// The items of a production of declarations and annotations.
pub fn declaration_body(production: DeclarationProduction) -> &'static [Item]
    ensures { result.now ≡ body_of (Declare production) }
{
    match production {
        DeclarationProduction::UnitOf => &[
            Item::Read(Symbol::OptionalPackage),
            Item::Do(Action::Declare(DeclarationAction::NoImports)),
            Item::Read(Symbol::Imports),
            Item::Do(Action::Declare(DeclarationAction::NoTypes)),
            Item::Read(Symbol::Types),
            Item::Do(Action::Declare(DeclarationAction::Unit)),
        ],
        DeclarationProduction::StubOf => &[
            Item::Do(Action::Declare(DeclarationAction::NoUnits)),
            Item::Read(Symbol::Sections),
        ],
        DeclarationProduction::AndSection => &[
            Item::Read(Symbol::Section),
            Item::Read(Symbol::Sections),
        ],
        DeclarationProduction::SectionOf => &[
            Item::Take(Word::Package, Effect::Passes),
            Item::Read(Symbol::Name),
            Item::Take(Word::Semicolon, Effect::Passes),
            Item::Do(Action::Declare(DeclarationAction::SomeName)),
            Item::Do(Action::Declare(DeclarationAction::NoImports)),
            Item::Read(Symbol::Imports),
            Item::Do(Action::Declare(DeclarationAction::NoTypes)),
            Item::Read(Symbol::Types),
            Item::Do(Action::Declare(DeclarationAction::Unit)),
            Item::Do(Action::Declare(DeclarationAction::AndUnit)),
        ],
        DeclarationProduction::SomePackage => &[
            Item::Take(Word::Package, Effect::Passes),
            Item::Read(Symbol::Name),
            Item::Take(Word::Semicolon, Effect::Passes),
            Item::Do(Action::Declare(DeclarationAction::SomeName)),
        ],
        DeclarationProduction::NoPackage => &[Item::Do(Action::Declare(DeclarationAction::NoName))],
        DeclarationProduction::AndImport => &[
            Item::Read(Symbol::Import),
            Item::Read(Symbol::Imports),
        ],
        DeclarationProduction::ImportOf => &[
            Item::Take(Word::Import, Effect::Passes),
            Item::Do(Action::Token(TokenAction::Place)),
            Item::Take(Word::Ident, Effect::Passes),
            Item::Do(Action::Token(TokenAction::Name)),
            Item::Read(Symbol::ImportTail),
            Item::Take(Word::Semicolon, Effect::Passes),
        ],
        DeclarationProduction::ImportDot => &[
            Item::Take(Word::Dot, Effect::Passes),
            Item::Read(Symbol::ImportStep),
        ],
        DeclarationProduction::ImportEnd => &[Item::Do(Action::Declare(DeclarationAction::Import))],
        DeclarationProduction::ImportName => &[
            Item::Take(Word::Ident, Effect::Passes),
            Item::Do(Action::Token(TokenAction::ExtendName)),
            Item::Read(Symbol::ImportTail),
        ],
        DeclarationProduction::ImportAll => &[
            Item::Take(Word::Star, Effect::Passes),
            Item::Do(Action::Declare(DeclarationAction::ImportAll)),
        ],
        DeclarationProduction::NameOf => &[
            Item::Take(Word::Ident, Effect::Passes),
            Item::Do(Action::Token(TokenAction::Name)),
            Item::Read(Symbol::NameTail),
        ],
        DeclarationProduction::NameDot => &[
            Item::Take(Word::Dot, Effect::Passes),
            Item::Take(Word::Ident, Effect::Passes),
            Item::Do(Action::Token(TokenAction::ExtendName)),
            Item::Read(Symbol::NameTail),
        ],
        DeclarationProduction::NamesOf => &[
            Item::Do(Action::State(StatementAction::NoNames)),
            Item::Read(Symbol::Name),
            Item::Do(Action::State(StatementAction::AndName)),
            Item::Read(Symbol::MoreNames),
        ],
        DeclarationProduction::AndName => &[
            Item::Take(Word::Comma, Effect::Passes),
            Item::Read(Symbol::Name),
            Item::Do(Action::State(StatementAction::AndName)),
            Item::Read(Symbol::MoreNames),
        ],
        DeclarationProduction::AndType => &[
            Item::Read(Symbol::TypeDeclaration),
            Item::Read(Symbol::Types),
        ],
        DeclarationProduction::LoneSemicolon => &[Item::Take(Word::Semicolon, Effect::Passes)],
        DeclarationProduction::ModifiedType => &[
            Item::Do(Action::Annotate(AnnotationAction::NoModifiers)),
            Item::Read(Symbol::Modifiers),
            Item::Read(Symbol::TypeKind),
        ],
        DeclarationProduction::ClassOf => &[
            Item::Take(Word::Class, Effect::Passes),
            Item::Take(Word::Ident, Effect::NamesClass),
            Item::Do(Action::Token(TokenAction::Name)),
            Item::Read(Symbol::Superclass),
            Item::Read(Symbol::Interfaces),
            Item::Take(Word::OpenBrace, Effect::Passes),
            Item::Do(Action::Declare(DeclarationAction::NoMembers)),
            Item::Read(Symbol::Members),
            Item::Take(Word::CloseBrace, Effect::Passes),
            Item::Do(Action::Declare(DeclarationAction::Class)),
        ],
        DeclarationProduction::InterfaceOf => &[
            Item::Take(Word::Interface, Effect::Passes),
            Item::Take(Word::Ident, Effect::Passes),
            Item::Do(Action::Token(TokenAction::Name)),
            Item::Read(Symbol::Superinterfaces),
            Item::Take(Word::OpenBrace, Effect::Passes),
            Item::Do(Action::Declare(DeclarationAction::NoMembers)),
            Item::Read(Symbol::InterfaceMembers),
            Item::Take(Word::CloseBrace, Effect::Passes),
            Item::Do(Action::Declare(DeclarationAction::Interface)),
        ],
        DeclarationProduction::SomeSuperclass => &[
            Item::Take(Word::Extends, Effect::Passes),
            Item::Read(Symbol::Name),
            Item::Do(Action::Declare(DeclarationAction::SomeName)),
        ],
        DeclarationProduction::NoSuperclass => &[Item::Do(Action::Declare(
            DeclarationAction::NoName,
        ))],
        DeclarationProduction::SomeSuperinterfaces => &[
            Item::Take(Word::Extends, Effect::Passes),
            Item::Read(Symbol::Names),
        ],
        DeclarationProduction::NoSuperinterface => &[Item::Do(Action::State(
            StatementAction::NoNames,
        ))],
        DeclarationProduction::SomeInterfaces => &[
            Item::Take(Word::Implements, Effect::Passes),
            Item::Read(Symbol::Names),
        ],
        DeclarationProduction::NoInterface => &[Item::Do(Action::State(StatementAction::NoNames))],
        DeclarationProduction::AndAnnotation => &[
            Item::Read(Symbol::Annotation),
            Item::Do(Action::Annotate(AnnotationAction::AnnotationModifier)),
            Item::Read(Symbol::Modifiers),
        ],
        DeclarationProduction::AndPublic => &[
            Item::Take(Word::Public, Effect::Adds),
            Item::Do(Action::Annotate(AnnotationAction::Public)),
            Item::Read(Symbol::Modifiers),
        ],
        DeclarationProduction::AndProtected => &[
            Item::Take(Word::Protected, Effect::Adds),
            Item::Do(Action::Annotate(AnnotationAction::Protected)),
            Item::Read(Symbol::Modifiers),
        ],
        DeclarationProduction::AndPrivate => &[
            Item::Take(Word::Private, Effect::Adds),
            Item::Do(Action::Annotate(AnnotationAction::Private)),
            Item::Read(Symbol::Modifiers),
        ],
        DeclarationProduction::AndStatic => &[
            Item::Take(Word::Static, Effect::Adds),
            Item::Do(Action::Annotate(AnnotationAction::Static)),
            Item::Read(Symbol::Modifiers),
        ],
        DeclarationProduction::AndFinal => &[
            Item::Take(Word::Final, Effect::Adds),
            Item::Do(Action::Annotate(AnnotationAction::Final)),
            Item::Read(Symbol::Modifiers),
        ],
        DeclarationProduction::AndAbstract => &[
            Item::Take(Word::Abstract, Effect::Adds),
            Item::Do(Action::Annotate(AnnotationAction::Abstract)),
            Item::Read(Symbol::Modifiers),
        ],
        DeclarationProduction::VariableAnnotation => &[
            Item::Read(Symbol::Annotation),
            Item::Do(Action::Annotate(AnnotationAction::AnnotationModifier)),
            Item::Read(Symbol::VariableModifiers),
        ],
        DeclarationProduction::VariableFinal => &[
            Item::Take(Word::Final, Effect::Passes),
            Item::Do(Action::Annotate(AnnotationAction::Final)),
            Item::Read(Symbol::FinalModifiers),
        ],
        DeclarationProduction::FinalAnnotation => &[
            Item::Read(Symbol::Annotation),
            Item::Do(Action::Annotate(AnnotationAction::AnnotationModifier)),
            Item::Read(Symbol::FinalModifiers),
        ],
        DeclarationProduction::AndMember => &[
            Item::Read(Symbol::Member),
            Item::Read(Symbol::Members),
        ],
        DeclarationProduction::LoneMember => &[Item::Take(Word::Semicolon, Effect::Passes)],
        DeclarationProduction::ModifiedMember => &[
            Item::Do(Action::Annotate(AnnotationAction::NoModifiers)),
            Item::Read(Symbol::Modifiers),
            Item::Read(Symbol::MemberRest),
        ],
        DeclarationProduction::VoidMember => &[
            Item::Take(Word::Void, Effect::Passes),
            Item::Do(Action::Declare(DeclarationAction::NoResult)),
            Item::Take(Word::Ident, Effect::Passes),
            Item::Do(Action::Token(TokenAction::Name)),
            Item::Read(Symbol::MethodRest),
        ],
        DeclarationProduction::PrimitiveMember => &[
            Item::Take(Word::Primitive, Effect::Passes),
            Item::Do(Action::Token(TokenAction::PrimitiveType)),
            Item::Read(Symbol::Brackets),
            Item::Take(Word::Ident, Effect::Passes),
            Item::Do(Action::Token(TokenAction::Name)),
            Item::Read(Symbol::FieldOrMethod),
        ],
        DeclarationProduction::NamedMember => &[
            Item::Take(Word::Ident, Effect::NamesMember),
            Item::Do(Action::Token(TokenAction::Name)),
            Item::Read(Symbol::AfterMemberName),
        ],
        DeclarationProduction::ConstructorOf => &[
            Item::Read(Symbol::Parameters),
            Item::Read(Symbol::Throws),
            Item::Read(Symbol::ConstructorBody),
        ],
        DeclarationProduction::DottedMember => &[
            Item::Take(Word::Dot, Effect::Passes),
            Item::Take(Word::Ident, Effect::Passes),
            Item::Do(Action::Token(TokenAction::ExtendName)),
            Item::Read(Symbol::NameTail),
            Item::Do(Action::Compute(ExpressionAction::NamedType)),
            Item::Read(Symbol::Brackets),
            Item::Take(Word::Ident, Effect::Passes),
            Item::Do(Action::Token(TokenAction::Name)),
            Item::Read(Symbol::FieldOrMethod),
        ],
        DeclarationProduction::ArrayMember => &[
            Item::Do(Action::Compute(ExpressionAction::NamedType)),
            Item::Take(Word::OpenBracket, Effect::Passes),
            Item::Take(Word::CloseBracket, Effect::Passes),
            Item::Do(Action::Compute(ExpressionAction::ArrayOf)),
            Item::Take(Word::Ident, Effect::Passes),
            Item::Do(Action::Token(TokenAction::Name)),
            Item::Read(Symbol::FieldOrMethod),
        ],
        DeclarationProduction::PlainMember => &[
            Item::Do(Action::Compute(ExpressionAction::NamedType)),
            Item::Take(Word::Ident, Effect::Passes),
            Item::Do(Action::Token(TokenAction::Name)),
            Item::Read(Symbol::FieldOrMethod),
        ],
        DeclarationProduction::MethodOf => &[
            Item::Do(Action::Declare(DeclarationAction::Method)),
            Item::Read(Symbol::MethodRest),
        ],
        DeclarationProduction::FieldOf => &[
            Item::Do(Action::State(StatementAction::FirstVariable)),
            Item::Read(Symbol::Initializer),
            Item::Read(Symbol::MoreVariables),
            Item::Take(Word::Semicolon, Effect::Passes),
            Item::Do(Action::Declare(DeclarationAction::Field)),
        ],
        DeclarationProduction::MethodRestOf => &[
            Item::Read(Symbol::Parameters),
            Item::Read(Symbol::Throws),
            Item::Read(Symbol::MethodBody),
        ],
        DeclarationProduction::SomeMethodBody => &[
            Item::Read(Symbol::Block),
            Item::Do(Action::Declare(DeclarationAction::MethodBody)),
        ],
        DeclarationProduction::NoMethodBody => &[
            Item::Take(Word::Semicolon, Effect::Passes),
            Item::Do(Action::Declare(DeclarationAction::MethodHead)),
        ],
        DeclarationProduction::SomeConstructorBody => &[
            Item::Take(Word::OpenBrace, Effect::Passes),
            Item::Do(Action::Token(TokenAction::Place)),
            Item::Read(Symbol::ConstructorStart),
            Item::Take(Word::CloseBrace, Effect::Passes),
            Item::Do(Action::Token(TokenAction::ConstructorBody)),
            Item::Do(Action::Declare(DeclarationAction::Constructor)),
        ],
        DeclarationProduction::NoConstructorBody => &[
            Item::Take(Word::Semicolon, Effect::Passes),
            Item::Do(Action::Declare(DeclarationAction::ConstructorHead)),
        ],
        DeclarationProduction::SuperStart => &[
            Item::Take(Word::Super, Effect::Passes),
            Item::Do(Action::Token(TokenAction::Place)),
            Item::Read(Symbol::AfterSuper),
        ],
        DeclarationProduction::PlainStart => &[
            Item::Read(Symbol::PlainStatement),
            Item::Do(Action::Declare(DeclarationAction::FirstStatement)),
            Item::Read(Symbol::Statements),
        ],
        DeclarationProduction::EmptyStart => &[
            Item::Do(Action::Declare(DeclarationAction::NoSuperCall)),
            Item::Do(Action::State(StatementAction::NoStatements)),
        ],
        DeclarationProduction::SuperCall => &[
            Item::Read(Symbol::Arguments),
            Item::Do(Action::Declare(DeclarationAction::SuperCall)),
            Item::Take(Word::Semicolon, Effect::Passes),
            Item::Do(Action::State(StatementAction::NoStatements)),
            Item::Read(Symbol::Statements),
        ],
        DeclarationProduction::SuperMethodStart => &[
            Item::Take(Word::Dot, Effect::Passes),
            Item::Take(Word::Ident, Effect::Passes),
            Item::Do(Action::Token(TokenAction::Name)),
            Item::Read(Symbol::Arguments),
            Item::Do(Action::Compute(ExpressionAction::SuperMethodCall)),
            Item::Read(Symbol::Suffixes),
            Item::Read(Symbol::StatementTail),
            Item::Take(Word::Semicolon, Effect::Passes),
            Item::Do(Action::State(StatementAction::ExpressionStatement)),
            Item::Do(Action::Declare(DeclarationAction::FirstStatement)),
            Item::Read(Symbol::Statements),
        ],
        DeclarationProduction::SomeThrows => &[
            Item::Take(Word::Throws, Effect::Passes),
            Item::Read(Symbol::Names),
        ],
        DeclarationProduction::NoThrows => &[Item::Do(Action::State(StatementAction::NoNames))],
        DeclarationProduction::ParametersOf => &[
            Item::Take(Word::OpenParen, Effect::Passes),
            Item::Do(Action::Declare(DeclarationAction::NoParameters)),
            Item::Read(Symbol::FirstParameter),
            Item::Take(Word::CloseParen, Effect::Passes),
        ],
        DeclarationProduction::SomeParameter => &[
            Item::Do(Action::Annotate(AnnotationAction::NoModifiers)),
            Item::Read(Symbol::VariableModifiers),
            Item::Read(Symbol::Type),
            Item::Read(Symbol::ParameterName),
            Item::Read(Symbol::MoreParameters),
        ],
        DeclarationProduction::DeclaredName => &[
            Item::Take(Word::Ident, Effect::Passes),
            Item::Do(Action::Token(TokenAction::Name)),
            Item::Do(Action::Declare(DeclarationAction::Parameter)),
        ],
        DeclarationProduction::ReceiverName => &[
            Item::Take(Word::This, Effect::Passes),
            Item::Do(Action::Token(TokenAction::Name)),
            Item::Do(Action::Declare(DeclarationAction::Receiver)),
        ],
        DeclarationProduction::AndParameter => &[
            Item::Take(Word::Comma, Effect::Passes),
            Item::Do(Action::Annotate(AnnotationAction::NoModifiers)),
            Item::Read(Symbol::VariableModifiers),
            Item::Read(Symbol::Type),
            Item::Take(Word::Ident, Effect::Passes),
            Item::Do(Action::Token(TokenAction::Name)),
            Item::Do(Action::Declare(DeclarationAction::Parameter)),
            Item::Read(Symbol::MoreParameters),
        ],
        DeclarationProduction::PrimitiveType => &[
            Item::Take(Word::Primitive, Effect::Passes),
            Item::Do(Action::Token(TokenAction::PrimitiveType)),
            Item::Read(Symbol::Brackets),
        ],
        DeclarationProduction::NamedType => &[
            Item::Read(Symbol::Name),
            Item::Do(Action::Compute(ExpressionAction::NamedType)),
            Item::Read(Symbol::Brackets),
        ],
        DeclarationProduction::SomeBrackets => &[
            Item::Take(Word::OpenBracket, Effect::Passes),
            Item::Take(Word::CloseBracket, Effect::Passes),
            Item::Do(Action::Compute(ExpressionAction::ArrayOf)),
        ],
        DeclarationProduction::SomeInitializer => &[
            Item::Take(Word::Assign, Effect::Passes),
            Item::Read(Symbol::Expression),
            Item::Do(Action::State(StatementAction::Variable)),
        ],
        DeclarationProduction::NoInitializer => &[Item::Do(Action::State(
            StatementAction::PlainVariable,
        ))],
        DeclarationProduction::AndVariable => &[
            Item::Take(Word::Comma, Effect::Passes),
            Item::Take(Word::Ident, Effect::Passes),
            Item::Do(Action::Token(TokenAction::Name)),
            Item::Read(Symbol::Initializer),
            Item::Read(Symbol::MoreVariables),
        ],
        DeclarationProduction::VariablesOf => &[
            Item::Take(Word::Ident, Effect::Passes),
            Item::Do(Action::Token(TokenAction::Name)),
            Item::Do(Action::State(StatementAction::FirstVariable)),
            Item::Read(Symbol::Initializer),
            Item::Read(Symbol::MoreVariables),
        ],
        DeclarationProduction::AndInterfaceMember => &[
            Item::Read(Symbol::InterfaceMember),
            Item::Read(Symbol::InterfaceMembers),
        ],
        DeclarationProduction::LoneInterfaceMember => &[Item::Take(
            Word::Semicolon,
            Effect::Passes,
        )],
        DeclarationProduction::HeadOf => &[
            Item::Do(Action::Annotate(AnnotationAction::NoModifiers)),
            Item::Read(Symbol::Modifiers),
            Item::Read(Symbol::ResultType),
            Item::Take(Word::Ident, Effect::Passes),
            Item::Do(Action::Token(TokenAction::Name)),
            Item::Read(Symbol::Parameters),
            Item::Read(Symbol::Throws),
            Item::Take(Word::Semicolon, Effect::Passes),
            Item::Do(Action::Declare(DeclarationAction::MethodHead)),
        ],
        DeclarationProduction::TypeResult => &[
            Item::Read(Symbol::Type),
            Item::Do(Action::Declare(DeclarationAction::SomeResult)),
        ],
        DeclarationProduction::VoidResult => &[
            Item::Take(Word::Void, Effect::Passes),
            Item::Do(Action::Declare(DeclarationAction::NoResult)),
        ],
        DeclarationProduction::SomeAnnotations => &[
            Item::Read(Symbol::Annotation),
            Item::Do(Action::Annotate(AnnotationAction::AndAnnotation)),
            Item::Read(Symbol::Annotations),
        ],
        DeclarationProduction::AnnotationOf => &[
            Item::Take(Word::At, Effect::Passes),
            Item::Do(Action::Token(TokenAction::Place)),
            Item::Read(Symbol::Name),
            Item::Do(Action::Annotate(AnnotationAction::NoArguments)),
            Item::Read(Symbol::AnnotationArguments),
            Item::Do(Action::Annotate(AnnotationAction::Annotation)),
        ],
        DeclarationProduction::SomeAnnotationArguments => &[
            Item::Take(Word::OpenParen, Effect::Passes),
            Item::Read(Symbol::AnnotationValues),
            Item::Take(Word::CloseParen, Effect::Passes),
        ],
        DeclarationProduction::NamedValues => &[
            Item::Take(Word::Ident, Effect::Assigns),
            Item::Do(Action::Token(TokenAction::Name)),
            Item::Read(Symbol::AfterAnnotationName),
        ],
        DeclarationProduction::OneValue => &[
            Item::Read(Symbol::OtherValue),
            Item::Do(Action::Annotate(AnnotationAction::SingleValue)),
        ],
        DeclarationProduction::PairOf => &[
            Item::Take(Word::Assign, Effect::Passes),
            Item::Read(Symbol::Value),
            Item::Do(Action::Annotate(AnnotationAction::Pair)),
            Item::Read(Symbol::MorePairs),
        ],
        DeclarationProduction::NameValue => &[
            Item::Read(Symbol::Call),
            Item::Do(Action::Compute(ExpressionAction::Head)),
            Item::Read(Symbol::Suffixes),
            Item::Read(Symbol::Steps),
            Item::Do(Action::Compute(ExpressionAction::BeginOperations)),
            Item::Read(Symbol::Operations),
            Item::Read(Symbol::Choice),
            Item::Do(Action::Annotate(AnnotationAction::ExpressionValue)),
            Item::Do(Action::Annotate(AnnotationAction::SingleValue)),
        ],
        DeclarationProduction::AndPair => &[
            Item::Take(Word::Comma, Effect::Passes),
            Item::Take(Word::Ident, Effect::Passes),
            Item::Do(Action::Token(TokenAction::Name)),
            Item::Take(Word::Assign, Effect::Passes),
            Item::Read(Symbol::Value),
            Item::Do(Action::Annotate(AnnotationAction::Pair)),
            Item::Read(Symbol::MorePairs),
        ],
        DeclarationProduction::ValueOfName => &[
            Item::Take(Word::Ident, Effect::Assigns),
            Item::Do(Action::Token(TokenAction::Name)),
            Item::Read(Symbol::Call),
            Item::Do(Action::Compute(ExpressionAction::Head)),
            Item::Read(Symbol::Suffixes),
            Item::Read(Symbol::Steps),
            Item::Do(Action::Compute(ExpressionAction::BeginOperations)),
            Item::Read(Symbol::Operations),
            Item::Read(Symbol::Choice),
            Item::Do(Action::Annotate(AnnotationAction::ExpressionValue)),
        ],
        DeclarationProduction::ValueOf => &[Item::Read(Symbol::OtherValue)],
        DeclarationProduction::ConditionValue => &[
            Item::Read(Symbol::OtherUnary),
            Item::Do(Action::Compute(ExpressionAction::BeginOperations)),
            Item::Read(Symbol::Operations),
            Item::Read(Symbol::Choice),
            Item::Do(Action::Annotate(AnnotationAction::ExpressionValue)),
        ],
        DeclarationProduction::AnnotationValue => &[
            Item::Read(Symbol::Annotation),
            Item::Do(Action::Annotate(AnnotationAction::AnnotationValue)),
        ],
        DeclarationProduction::ListValue => &[
            Item::Take(Word::OpenBrace, Effect::Passes),
            Item::Do(Action::Token(TokenAction::Place)),
            Item::Do(Action::Annotate(AnnotationAction::NoValues)),
            Item::Read(Symbol::ValueList),
            Item::Take(Word::CloseBrace, Effect::Passes),
            Item::Do(Action::Annotate(AnnotationAction::ListValue)),
        ],
        DeclarationProduction::SomeValues => &[
            Item::Read(Symbol::Value),
            Item::Do(Action::Annotate(AnnotationAction::AndValue)),
            Item::Read(Symbol::MoreValues),
        ],
        DeclarationProduction::OnlyComma => &[Item::Take(Word::Comma, Effect::Passes)],
        DeclarationProduction::AndComma => &[
            Item::Take(Word::Comma, Effect::Passes),
            Item::Read(Symbol::AfterComma),
        ],
        DeclarationProduction::AndValue => &[
            Item::Read(Symbol::Value),
            Item::Do(Action::Annotate(AnnotationAction::AndValue)),
            Item::Read(Symbol::MoreValues),
        ],
        // Nothing stands there.
        DeclarationProduction::NoSection
        | DeclarationProduction::NoImport
        | DeclarationProduction::NameEnd
        | DeclarationProduction::LastName
        | DeclarationProduction::NoType
        | DeclarationProduction::NoModifier
        | DeclarationProduction::NoVariableModifier
        | DeclarationProduction::NoFinalModifier
        | DeclarationProduction::NoMember
        | DeclarationProduction::NoParameter
        | DeclarationProduction::LastParameter
        | DeclarationProduction::NoBrackets
        | DeclarationProduction::LastVariable
        | DeclarationProduction::NoInterfaceMember
        | DeclarationProduction::NoAnnotations
        | DeclarationProduction::NoAnnotationArguments
        | DeclarationProduction::NoValues
        | DeclarationProduction::LastPair
        | DeclarationProduction::EmptyList
        | DeclarationProduction::LastValue
        | DeclarationProduction::TrailingComma => &[],
    }
}
