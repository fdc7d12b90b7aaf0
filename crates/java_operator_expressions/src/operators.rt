//! The operators of expressions, as the typed program names them.

ghost use Rattle.std.specs.Prelude.{◌≡◌};
ghost use Rattle.java_operator_expressions.specs.Operators.{operator_of, step_operator_of, unary_operator_of};

use java_syntax::{InfixOperator, PrefixOperator, StepOperator};
use program_model::{BinaryOperator, UnaryOperator};

/// The operator of a binary expression or of an assignment that uses it (JLS 15.17 to 15.24, 15.26.2).
pub fn operator_of(operator: InfixOperator) -> BinaryOperator
    ensures { result ≡ operator_of operator }
{
    match operator {
        InfixOperator::Multiply => BinaryOperator::Multiply,
        InfixOperator::Divide => BinaryOperator::Divide,
        InfixOperator::Remainder => BinaryOperator::Remainder,
        InfixOperator::Add => BinaryOperator::Add,
        InfixOperator::Subtract => BinaryOperator::Subtract,
        InfixOperator::ShiftLeft => BinaryOperator::ShiftLeft,
        InfixOperator::ShiftRight => BinaryOperator::ShiftRight,
        InfixOperator::ShiftRightUnsigned => BinaryOperator::ShiftRightUnsigned,
        InfixOperator::Less => BinaryOperator::Less,
        InfixOperator::Greater => BinaryOperator::Greater,
        InfixOperator::LessOrEqual => BinaryOperator::LessOrEqual,
        InfixOperator::GreaterOrEqual => BinaryOperator::GreaterOrEqual,
        InfixOperator::Equal => BinaryOperator::Equal,
        InfixOperator::NotEqual => BinaryOperator::NotEqual,
        InfixOperator::And => BinaryOperator::And,
        InfixOperator::Xor => BinaryOperator::Xor,
        InfixOperator::Or => BinaryOperator::Or,
        InfixOperator::ConditionalAnd => BinaryOperator::ConditionalAnd,
        InfixOperator::ConditionalOr => BinaryOperator::ConditionalOr,
    }
}

/// The operator of a unary expression (JLS 15.15).
pub fn unary_operator_of(operator: PrefixOperator) -> UnaryOperator
    ensures { result ≡ unary_operator_of operator }
{
    match operator {
        PrefixOperator::Plus => UnaryOperator::Plus,
        PrefixOperator::Minus => UnaryOperator::Minus,
        PrefixOperator::Not => UnaryOperator::Not,
        PrefixOperator::Complement => UnaryOperator::Complement,
    }
}

/// The operator that takes a step: `++` adds 1, and `--` subtracts it (JLS 15.14.2, 15.14.3).
pub fn step_operator_of(operator: StepOperator) -> BinaryOperator
    ensures { result ≡ step_operator_of operator }
{
    match operator {
        StepOperator::Increment => BinaryOperator::Add,
        StepOperator::Decrement => BinaryOperator::Subtract,
    }
}
