ghost use Rattle.std.specs.Prelude.{◌≡◌};
ghost use Rattle.java_nodes.specs.Operators as operators;

use java_lexer::{Meaning, operator_meaning, reserved_word_meaning};
use java_syntax::{InfixOperator, PrefixOperator, PrimitiveName, StepOperator};

/// The operator between two operands that is written so. Of a text that is none it is `||`.
#[tactic(auto, unfolding(crate::specs::Operators::infix_operator))]
pub fn infix_operator(text: &[u8]) -> InfixOperator
    ensures { result ≡ operators.infix_operator text.now }
{
    match operator_meaning(text) {
        Meaning::Infix(operator) => operator,
        Meaning::Sign(_, operator) => operator,
        Meaning::Plain => InfixOperator::ConditionalOr,
        Meaning::Primitive(_) => InfixOperator::ConditionalOr,
        Meaning::Step(_) => InfixOperator::ConditionalOr,
        Meaning::Prefix(_) => InfixOperator::ConditionalOr,
    }
}

/// The operator of a compound assignment (JLS 15.26.2), as `+` of `+=`. Of a text that is none it is `||`.
#[tactic(auto, unfolding(crate::specs::Operators::compound_operator))]
pub fn compound_operator(text: &[u8]) -> InfixOperator
    ensures { result ≡ operators.compound_operator text.now }
{
    let len = text.len().saturating_sub(1);
    infix_operator(&text[..len])
}

/// The operator before an operand that is written so. Of a text that is none it is `+`.
#[tactic(auto, unfolding(crate::specs::Operators::prefix_operator))]
pub fn prefix_operator(text: &[u8]) -> PrefixOperator
    ensures { result ≡ operators.prefix_operator text.now }
{
    match operator_meaning(text) {
        Meaning::Prefix(operator) => operator,
        Meaning::Sign(operator, _) => operator,
        Meaning::Plain => PrefixOperator::Plus,
        Meaning::Primitive(_) => PrefixOperator::Plus,
        Meaning::Step(_) => PrefixOperator::Plus,
        Meaning::Infix(_) => PrefixOperator::Plus,
    }
}

/// `++` or `--`. Of a text that is none of the two it is `++`.
#[tactic(auto, unfolding(crate::specs::Operators::step_operator))]
pub fn step_operator(text: &[u8]) -> StepOperator
    ensures { result ≡ operators.step_operator text.now }
{
    match operator_meaning(text) {
        Meaning::Step(operator) => operator,
        Meaning::Plain => StepOperator::Increment,
        Meaning::Primitive(_) => StepOperator::Increment,
        Meaning::Prefix(_) => StepOperator::Increment,
        Meaning::Infix(_) => StepOperator::Increment,
        Meaning::Sign(_, _) => StepOperator::Increment,
    }
}

/// The primitive type that is written so (JLS 4.2). Of a text that is none it is `int`.
#[tactic(auto, unfolding(crate::specs::Operators::primitive_name))]
pub fn primitive_name(text: &[u8]) -> PrimitiveName
    ensures { result ≡ operators.primitive_name text.now }
{
    match reserved_word_meaning(text) {
        Meaning::Primitive(name) => name,
        Meaning::Plain => PrimitiveName::Int,
        Meaning::Step(_) => PrimitiveName::Int,
        Meaning::Prefix(_) => PrimitiveName::Int,
        Meaning::Infix(_) => PrimitiveName::Int,
        Meaning::Sign(_, _) => PrimitiveName::Int,
    }
}
