ghost use Rattle.std.specs.Prelude.{◌≡◌};
ghost use Rattle.java_syntax.specs.Table.{body_of};
ghost use Rattle.java_syntax.specs.declared.productions.Production.TheVariants.{Compute};

use crate::actions::{Action, ExpressionAction, TokenAction};
use crate::productions::ExpressionProduction;
use crate::symbols::{Item, Symbol};
use crate::words::{Effect, Word};

/// The items of a production of expressions.
pub fn expression_body(production: ExpressionProduction) -> &'static [Item]
    ensures { result.now ≡ body_of (Compute production) }
{
    match production {
        ExpressionProduction::NameExpression => &[
            Item::Take(Word::Ident, Effect::Assigns),
            Item::Do(Action::Token(TokenAction::Name)),
            Item::Read(Symbol::Call),
            Item::Do(Action::Compute(ExpressionAction::Head)),
            Item::Read(Symbol::Suffixes),
            Item::Read(Symbol::ExpressionTail),
        ],
        ExpressionProduction::ExpressionOf => &[Item::Read(Symbol::OtherExpression)],
        ExpressionProduction::PrefixedExpression => &[
            Item::Read(Symbol::Prefixed),
            Item::Do(Action::Compute(ExpressionAction::BeginOperations)),
            Item::Read(Symbol::Operations),
            Item::Read(Symbol::Choice),
        ],
        ExpressionProduction::OpenExpression => &[
            Item::Take(Word::OpenParen, Effect::Passes),
            Item::Do(Action::Token(TokenAction::Place)),
            Item::Read(Symbol::AfterOpenExpression),
        ],
        ExpressionProduction::PrimaryExpression => &[
            Item::Read(Symbol::OtherPrimary),
            Item::Read(Symbol::ExpressionTail),
        ],
        ExpressionProduction::PrimitiveCastExpression => &[
            Item::Take(Word::Primitive, Effect::Passes),
            Item::Do(Action::Token(TokenAction::PrimitiveType)),
            Item::Read(Symbol::PrimitiveCast),
            Item::Do(Action::Compute(ExpressionAction::BeginOperations)),
            Item::Read(Symbol::Operations),
            Item::Read(Symbol::Choice),
        ],
        ExpressionProduction::InsideExpression => &[
            Item::Read(Symbol::Inside),
            Item::Read(Symbol::AfterInsideExpression),
        ],
        ExpressionProduction::CastExpression => &[
            Item::Do(Action::Compute(ExpressionAction::CastType)),
            Item::Read(Symbol::Unsigned),
            Item::Do(Action::Compute(ExpressionAction::Cast)),
            Item::Do(Action::Compute(ExpressionAction::BeginOperations)),
            Item::Read(Symbol::Operations),
            Item::Read(Symbol::Choice),
        ],
        ExpressionProduction::ParenthesesExpression => &[
            Item::Do(Action::Compute(ExpressionAction::ParenthesizedExpression)),
            Item::Read(Symbol::Suffixes),
            Item::Read(Symbol::ExpressionTail),
        ],
        ExpressionProduction::SomeTailOf => &[Item::Read(Symbol::SomeTail)],
        ExpressionProduction::AssignTail => &[
            Item::Take(Word::Assign, Effect::Passes),
            Item::Do(Action::Token(TokenAction::Place)),
            Item::Read(Symbol::Expression),
            Item::Do(Action::Compute(ExpressionAction::Assignment)),
        ],
        ExpressionProduction::CompoundTail => &[
            Item::Take(Word::Compound, Effect::Passes),
            Item::Do(Action::Token(TokenAction::Keep)),
            Item::Read(Symbol::Expression),
            Item::Do(Action::Compute(ExpressionAction::CompoundAssignment)),
        ],
        ExpressionProduction::StepsTail => &[
            Item::Take(Word::Step, Effect::Passes),
            Item::Do(Action::Token(TokenAction::Increment)),
            Item::Read(Symbol::Steps),
            Item::Do(Action::Compute(ExpressionAction::BeginOperations)),
            Item::Read(Symbol::Operations),
            Item::Read(Symbol::Choice),
        ],
        ExpressionProduction::TightTail => &[
            Item::Do(Action::Compute(ExpressionAction::BeginOperations)),
            Item::Read(Symbol::TightOperation),
            Item::Read(Symbol::Operations),
            Item::Read(Symbol::Choice),
        ],
        ExpressionProduction::LooseTail => &[
            Item::Do(Action::Compute(ExpressionAction::BeginOperations)),
            Item::Read(Symbol::LooseOperations),
            Item::Read(Symbol::Choice),
        ],
        ExpressionProduction::ChoiceTail => &[Item::Read(Symbol::SomeChoice)],
        ExpressionProduction::ChoiceOf => &[Item::Read(Symbol::SomeChoice)],
        ExpressionProduction::Conditional => &[
            Item::Take(Word::Question, Effect::Passes),
            Item::Do(Action::Token(TokenAction::Place)),
            Item::Read(Symbol::Expression),
            Item::Take(Word::Colon, Effect::Passes),
            Item::Read(Symbol::Condition),
            Item::Do(Action::Compute(ExpressionAction::Conditional)),
        ],
        ExpressionProduction::ConditionOf => &[
            Item::Read(Symbol::Unary),
            Item::Do(Action::Compute(ExpressionAction::BeginOperations)),
            Item::Read(Symbol::Operations),
            Item::Read(Symbol::Choice),
        ],
        ExpressionProduction::AndTight => &[
            Item::Read(Symbol::TightOperation),
            Item::Read(Symbol::Operations),
        ],
        ExpressionProduction::AndLoose => &[Item::Read(Symbol::LooseOperations)],
        ExpressionProduction::NoOperation => &[Item::Do(Action::Compute(
            ExpressionAction::EndOperations,
        ))],
        ExpressionProduction::SignOperation => &[
            Item::Take(Word::Sign, Effect::Passes),
            Item::Do(Action::Token(TokenAction::Operator)),
            Item::Read(Symbol::Unary),
        ],
        ExpressionProduction::StarOperation => &[
            Item::Take(Word::Star, Effect::Passes),
            Item::Do(Action::Token(TokenAction::Operator)),
            Item::Read(Symbol::Unary),
        ],
        ExpressionProduction::TightBinary => &[
            Item::Take(Word::Tight, Effect::Passes),
            Item::Do(Action::Token(TokenAction::Operator)),
            Item::Read(Symbol::Unary),
        ],
        ExpressionProduction::LooseBinary => &[
            Item::Take(Word::Loose, Effect::Passes),
            Item::Do(Action::Token(TokenAction::Operator)),
            Item::Read(Symbol::Unary),
            Item::Read(Symbol::Operations),
        ],
        ExpressionProduction::BarBinary => &[
            Item::Take(Word::Bar, Effect::Passes),
            Item::Do(Action::Token(TokenAction::Operator)),
            Item::Read(Symbol::Unary),
            Item::Read(Symbol::Operations),
        ],
        ExpressionProduction::InstanceTest => &[
            Item::Take(Word::Instanceof, Effect::Passes),
            Item::Do(Action::Token(TokenAction::InstanceOperator)),
            Item::Read(Symbol::Type),
            Item::Do(Action::Compute(ExpressionAction::InstanceOf)),
            Item::Read(Symbol::AfterInstance),
        ],
        ExpressionProduction::SomeLoose => &[Item::Read(Symbol::LooseOperations)],
        ExpressionProduction::NoLoose => &[Item::Do(Action::Compute(
            ExpressionAction::EndOperations,
        ))],
        ExpressionProduction::NameUnary => &[
            Item::Take(Word::Ident, Effect::Assigns),
            Item::Do(Action::Token(TokenAction::Name)),
            Item::Read(Symbol::Call),
            Item::Do(Action::Compute(ExpressionAction::Head)),
            Item::Read(Symbol::Suffixes),
            Item::Read(Symbol::Steps),
        ],
        ExpressionProduction::UnaryOf => &[Item::Read(Symbol::OtherUnary)],
        ExpressionProduction::PrefixedUnary => &[Item::Read(Symbol::Prefixed)],
        ExpressionProduction::OpenUnary => &[
            Item::Take(Word::OpenParen, Effect::Passes),
            Item::Do(Action::Token(TokenAction::Place)),
            Item::Read(Symbol::AfterOpenUnary),
        ],
        ExpressionProduction::PrimaryUnary => &[
            Item::Read(Symbol::OtherPrimary),
            Item::Read(Symbol::Steps),
        ],
        ExpressionProduction::SignPrefix => &[
            Item::Take(Word::Sign, Effect::Passes),
            Item::Do(Action::Token(TokenAction::Keep)),
            Item::Read(Symbol::Unary),
            Item::Do(Action::Compute(ExpressionAction::Prefix)),
        ],
        ExpressionProduction::StepPrefix => &[
            Item::Take(Word::Step, Effect::Passes),
            Item::Do(Action::Token(TokenAction::Keep)),
            Item::Read(Symbol::Unary),
            Item::Do(Action::Compute(ExpressionAction::PrefixIncrement)),
        ],
        ExpressionProduction::NotPrefix => &[
            Item::Take(Word::Not, Effect::Passes),
            Item::Do(Action::Token(TokenAction::Keep)),
            Item::Read(Symbol::Unary),
            Item::Do(Action::Compute(ExpressionAction::Prefix)),
        ],
        ExpressionProduction::PrimitiveCastUnary => &[
            Item::Take(Word::Primitive, Effect::Passes),
            Item::Do(Action::Token(TokenAction::PrimitiveType)),
            Item::Read(Symbol::PrimitiveCast),
        ],
        ExpressionProduction::InsideUnary => &[
            Item::Read(Symbol::Inside),
            Item::Read(Symbol::AfterInside),
        ],
        ExpressionProduction::NotUnsigned => &[
            Item::Take(Word::Not, Effect::Passes),
            Item::Do(Action::Token(TokenAction::Keep)),
            Item::Read(Symbol::Unary),
            Item::Do(Action::Compute(ExpressionAction::Prefix)),
        ],
        ExpressionProduction::OpenUnsigned => &[
            Item::Take(Word::OpenParen, Effect::Passes),
            Item::Do(Action::Token(TokenAction::Place)),
            Item::Read(Symbol::AfterOpenUnsigned),
        ],
        ExpressionProduction::NameUnsigned => &[
            Item::Take(Word::Ident, Effect::Assigns),
            Item::Do(Action::Token(TokenAction::Name)),
            Item::Read(Symbol::Call),
            Item::Do(Action::Compute(ExpressionAction::Head)),
            Item::Read(Symbol::Suffixes),
            Item::Read(Symbol::Steps),
        ],
        ExpressionProduction::PrimaryUnsigned => &[
            Item::Read(Symbol::OtherPrimary),
            Item::Read(Symbol::Steps),
        ],
        ExpressionProduction::PrimitiveArrayCast => &[
            Item::Take(Word::Primitive, Effect::Passes),
            Item::Do(Action::Token(TokenAction::PrimitiveType)),
            Item::Take(Word::OpenBracket, Effect::Passes),
            Item::Take(Word::CloseBracket, Effect::Passes),
            Item::Do(Action::Compute(ExpressionAction::ArrayOf)),
            Item::Take(Word::CloseParen, Effect::Passes),
            Item::Read(Symbol::Unsigned),
            Item::Do(Action::Compute(ExpressionAction::Cast)),
        ],
        ExpressionProduction::InsideUnsigned => &[
            Item::Read(Symbol::Inside),
            Item::Read(Symbol::AfterInside),
        ],
        ExpressionProduction::ValueCast => &[
            Item::Take(Word::CloseParen, Effect::Passes),
            Item::Read(Symbol::Unary),
            Item::Do(Action::Compute(ExpressionAction::Cast)),
        ],
        ExpressionProduction::ArrayCast => &[
            Item::Take(Word::OpenBracket, Effect::Passes),
            Item::Take(Word::CloseBracket, Effect::Passes),
            Item::Do(Action::Compute(ExpressionAction::ArrayOf)),
            Item::Take(Word::CloseParen, Effect::Passes),
            Item::Read(Symbol::Unsigned),
            Item::Do(Action::Compute(ExpressionAction::Cast)),
        ],
        ExpressionProduction::InsideName => &[
            Item::Take(Word::Ident, Effect::Assigns),
            Item::Do(Action::Token(TokenAction::FirstIdentifier)),
            Item::Read(Symbol::AfterInsideName),
        ],
        ExpressionProduction::InsideOther => &[
            Item::Read(Symbol::OtherExpression),
            Item::Take(Word::CloseParen, Effect::Passes),
            Item::Do(Action::Compute(ExpressionAction::ExpressionInside)),
        ],
        ExpressionProduction::InsideDot => &[
            Item::Take(Word::Dot, Effect::Passes),
            Item::Take(Word::Ident, Effect::Assigns),
            Item::Do(Action::Token(TokenAction::NextIdentifier)),
            Item::Read(Symbol::AfterInsideName),
        ],
        ExpressionProduction::BareName => &[
            Item::Take(Word::CloseParen, Effect::ClosesName),
            Item::Do(Action::Compute(ExpressionAction::NamesInside)),
        ],
        ExpressionProduction::InsideBracket => &[
            Item::Take(Word::OpenBracket, Effect::Passes),
            Item::Do(Action::Token(TokenAction::Place)),
            Item::Read(Symbol::AfterInsideBracket),
        ],
        ExpressionProduction::InsideCall => &[
            Item::Read(Symbol::Arguments),
            Item::Do(Action::Compute(ExpressionAction::NamedCall)),
            Item::Read(Symbol::Suffixes),
            Item::Read(Symbol::ExpressionTail),
            Item::Take(Word::CloseParen, Effect::Passes),
            Item::Do(Action::Compute(ExpressionAction::ExpressionInside)),
        ],
        ExpressionProduction::InsideTail => &[
            Item::Do(Action::Compute(ExpressionAction::NameExpression)),
            Item::Read(Symbol::SomeTail),
            Item::Take(Word::CloseParen, Effect::Passes),
            Item::Do(Action::Compute(ExpressionAction::ExpressionInside)),
        ],
        ExpressionProduction::ArrayTypeInside => &[
            Item::Take(Word::CloseBracket, Effect::Passes),
            Item::Do(Action::Compute(ExpressionAction::ArrayType)),
            Item::Take(Word::CloseParen, Effect::ClosesArray),
            Item::Do(Action::Compute(ExpressionAction::ArrayInside)),
        ],
        ExpressionProduction::InsideIndex => &[
            Item::Read(Symbol::Expression),
            Item::Take(Word::CloseBracket, Effect::Assigns),
            Item::Do(Action::Compute(ExpressionAction::NamedIndex)),
            Item::Read(Symbol::Suffixes),
            Item::Read(Symbol::ExpressionTail),
            Item::Take(Word::CloseParen, Effect::Passes),
            Item::Do(Action::Compute(ExpressionAction::ExpressionInside)),
        ],
        ExpressionProduction::CastOf => &[
            Item::Do(Action::Compute(ExpressionAction::CastType)),
            Item::Read(Symbol::Unsigned),
            Item::Do(Action::Compute(ExpressionAction::Cast)),
        ],
        ExpressionProduction::ParenthesesOf => &[
            Item::Do(Action::Compute(ExpressionAction::ParenthesizedExpression)),
            Item::Read(Symbol::Suffixes),
            Item::Read(Symbol::Steps),
        ],
        ExpressionProduction::AndStep => &[
            Item::Take(Word::Step, Effect::Passes),
            Item::Do(Action::Token(TokenAction::Increment)),
            Item::Read(Symbol::Steps),
        ],
        ExpressionProduction::FieldSuffix => &[
            Item::Take(Word::Dot, Effect::Passes),
            Item::Take(Word::Ident, Effect::Assigns),
            Item::Do(Action::Token(TokenAction::Name)),
            Item::Read(Symbol::Call),
            Item::Do(Action::Compute(ExpressionAction::Selector)),
            Item::Read(Symbol::Suffixes),
        ],
        ExpressionProduction::IndexSuffix => &[
            Item::Take(Word::OpenBracket, Effect::Passes),
            Item::Do(Action::Token(TokenAction::Place)),
            Item::Read(Symbol::Expression),
            Item::Take(Word::CloseBracket, Effect::Assigns),
            Item::Do(Action::Compute(ExpressionAction::Index)),
            Item::Read(Symbol::Suffixes),
        ],
        ExpressionProduction::SomeCall => &[
            Item::Read(Symbol::Arguments),
            Item::Do(Action::Compute(ExpressionAction::SomeCall)),
        ],
        ExpressionProduction::NoCall => &[Item::Do(Action::Compute(ExpressionAction::NoCall))],
        ExpressionProduction::ArgumentsOf => &[
            Item::Take(Word::OpenParen, Effect::Passes),
            Item::Do(Action::Compute(ExpressionAction::NoExpressions)),
            Item::Read(Symbol::ArgumentList),
            Item::Take(Word::CloseParen, Effect::Calls),
        ],
        ExpressionProduction::SomeArguments => &[
            Item::Read(Symbol::Expression),
            Item::Do(Action::Compute(ExpressionAction::AndExpression)),
            Item::Read(Symbol::MoreArguments),
        ],
        ExpressionProduction::AndArgument => &[
            Item::Take(Word::Comma, Effect::Passes),
            Item::Read(Symbol::Expression),
            Item::Do(Action::Compute(ExpressionAction::AndExpression)),
            Item::Read(Symbol::MoreArguments),
        ],
        ExpressionProduction::SuperPrimary => &[
            Item::Take(Word::Super, Effect::Passes),
            Item::Take(Word::Dot, Effect::Passes),
            Item::Take(Word::Ident, Effect::Passes),
            Item::Do(Action::Token(TokenAction::Name)),
            Item::Read(Symbol::Arguments),
            Item::Do(Action::Compute(ExpressionAction::SuperMethodCall)),
            Item::Read(Symbol::Suffixes),
        ],
        ExpressionProduction::OtherPrimaryOf => &[
            Item::Read(Symbol::PlainPrimary),
            Item::Do(Action::Compute(ExpressionAction::LeavePlace)),
        ],
        ExpressionProduction::LiteralPrimary => &[
            Item::Take(Word::Literal, Effect::Passes),
            Item::Do(Action::Token(TokenAction::Place)),
            Item::Do(Action::Token(TokenAction::Literal)),
            Item::Read(Symbol::Suffixes),
        ],
        ExpressionProduction::ThisPrimary => &[
            Item::Take(Word::This, Effect::Passes),
            Item::Do(Action::Token(TokenAction::Place)),
            Item::Do(Action::Token(TokenAction::This)),
            Item::Read(Symbol::Suffixes),
        ],
        ExpressionProduction::NewPrimary => &[
            Item::Take(Word::New, Effect::Passes),
            Item::Do(Action::Token(TokenAction::Place)),
            Item::Do(Action::Token(TokenAction::Place)),
            Item::Read(Symbol::Creator),
        ],
        ExpressionProduction::PrimitiveArray => &[
            Item::Take(Word::Primitive, Effect::Passes),
            Item::Do(Action::Token(TokenAction::PrimitiveType)),
            Item::Take(Word::OpenBracket, Effect::Passes),
            Item::Read(Symbol::Expression),
            Item::Take(Word::CloseBracket, Effect::Passes),
            Item::Do(Action::Compute(ExpressionAction::NewArray)),
            Item::Read(Symbol::AfterArray),
        ],
        ExpressionProduction::NamedCreator => &[
            Item::Read(Symbol::Name),
            Item::Read(Symbol::CreatorRest),
        ],
        ExpressionProduction::NewObject => &[
            Item::Read(Symbol::Arguments),
            Item::Do(Action::Compute(ExpressionAction::NewObject)),
            Item::Read(Symbol::Suffixes),
        ],
        ExpressionProduction::NewArray => &[
            Item::Do(Action::Compute(ExpressionAction::NamedType)),
            Item::Take(Word::OpenBracket, Effect::Passes),
            Item::Read(Symbol::Expression),
            Item::Take(Word::CloseBracket, Effect::Passes),
            Item::Do(Action::Compute(ExpressionAction::NewArray)),
            Item::Read(Symbol::AfterArray),
        ],
        ExpressionProduction::ArrayField => &[
            Item::Take(Word::Dot, Effect::Passes),
            Item::Take(Word::Ident, Effect::Assigns),
            Item::Do(Action::Token(TokenAction::Name)),
            Item::Read(Symbol::Call),
            Item::Do(Action::Compute(ExpressionAction::Selector)),
            Item::Read(Symbol::Suffixes),
        ],
        // Nothing stands there.
        ExpressionProduction::NoTail
        | ExpressionProduction::NoChoice
        | ExpressionProduction::NoStep
        | ExpressionProduction::NoSuffix
        | ExpressionProduction::NoArgument
        | ExpressionProduction::LastArgument
        | ExpressionProduction::NoArrayField => &[],
    }
}
