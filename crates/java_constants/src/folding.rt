//! The values of constant expressions (JLS 15.29) whose parts have values.

ghost use Rattle.std.specs.Prelude.{◌≡◌, ◌≢◌, pos};
ghost use Rattle.java_constants.specs.Folding.{folded, folded_conditional, folded_number, folded_truth, folded_unary, truth};
ghost use Rattle.java_constants.specs.Folding.{quotient, rest};

use crate::arithmetic::{
    add, complement, divide, multiply, negate, remainder, shift_left, shift_right,
    shift_right_unsigned, subtract,
};
use program_model::{BinaryOperator, OperandType, UnaryOperator};

fn truth(value: bool) -> i64
    ensures { result ≡ truth value }
{
    if value { 1 } else { 0 }
}

fn quotient(t: OperandType, a: i64, b: i64) -> Option<i64>
    ensures { result ≡ quotient t a b }
{
    if b == 0 { None } else { Some(divide(t, a, b)) }
}

fn rest(a: i64, b: i64) -> Option<i64>
    ensures { result ≡ rest a b }
{
    if b == 0 { None } else { Some(remainder(a, b)) }
}

fn folded_number(operator: BinaryOperator, t: OperandType, a: i64, b: i64) -> Option<i64>
    ensures { result ≡ folded_number operator t a b }
{
    match operator {
        BinaryOperator::Multiply => Some(multiply(t, a, b)),
        BinaryOperator::Divide => quotient(t, a, b),
        BinaryOperator::Remainder => rest(a, b),
        BinaryOperator::Add => Some(add(t, a, b)),
        BinaryOperator::Subtract => Some(subtract(t, a, b)),
        BinaryOperator::ShiftLeft => Some(shift_left(t, a, b)),
        BinaryOperator::ShiftRight => Some(shift_right(t, a, b)),
        BinaryOperator::ShiftRightUnsigned => Some(shift_right_unsigned(t, a, b)),
        BinaryOperator::Less => Some(truth(a < b)),
        BinaryOperator::Greater => Some(truth(b < a)),
        BinaryOperator::LessOrEqual => Some(truth(a <= b)),
        BinaryOperator::GreaterOrEqual => Some(truth(b <= a)),
        BinaryOperator::Equal => Some(truth(a == b)),
        BinaryOperator::NotEqual => Some(truth(a != b)),
        BinaryOperator::And => Some(a & b),
        BinaryOperator::Xor => Some(a ^ b),
        BinaryOperator::Or => Some(a | b),
        BinaryOperator::ConditionalAnd => None,
        BinaryOperator::ConditionalOr => None,
    }
}

fn folded_truth(operator: BinaryOperator, a: i64, b: i64) -> Option<i64>
    ensures { result ≡ folded_truth operator a b }
{
    match operator {
        BinaryOperator::Equal => Some(truth(a == b)),
        BinaryOperator::NotEqual => Some(truth(a != b)),
        BinaryOperator::And => Some(a & b),
        BinaryOperator::Xor => Some(a ^ b),
        BinaryOperator::Or => Some(a | b),
        BinaryOperator::ConditionalAnd => Some(a & b),
        BinaryOperator::ConditionalOr => Some(a | b),
        _ => None,
    }
}

/// The value of `a operator b` (JLS 15.17 to 15.24), for the type to which the operator takes its operands: none where it is no
/// constant of these types, and for a division by zero.
pub fn folded(operator: BinaryOperator, t: OperandType, a: i64, b: i64) -> Option<i64>
    ensures { result ≡ folded operator t a b }
{
    match t {
        OperandType::Boolean => folded_truth(operator, a, b),
        OperandType::Int => folded_number(operator, OperandType::Int, a, b),
        OperandType::Long => folded_number(operator, OperandType::Long, a, b),
        OperandType::Text => None,
        OperandType::Reference => None,
    }
}

/// The value of `operator a` (JLS 15.15.3 to 15.15.6), for the promoted type of the operand, which `!` does not read.
pub fn folded_unary(operator: UnaryOperator, t: OperandType, a: i64) -> i64
    ensures { result ≡ folded_unary operator t a }
{
    match operator {
        UnaryOperator::Plus => a,
        UnaryOperator::Minus => negate(t, a),
        UnaryOperator::Complement => complement(a),
        UnaryOperator::Not => truth(a == 0),
    }
}

/// The value of `c ? a : b` (JLS 15.25), where all three are constant (JLS 15.29).
pub fn folded_conditional(c: Option<i64>, a: Option<i64>, b: Option<i64>) -> Option<i64>
    ensures { result ≡ folded_conditional c a b }
{
    let condition = c?;
    let when_true = a?;
    let when_false = b?;
    if condition == 0 {
        Some(when_false)
    } else {
        Some(when_true)
    }
}
