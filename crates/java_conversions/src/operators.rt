//! Numeric promotion (JLS 5.6), and the types of operators (JLS 15.14 to 15.24, 15.26.2).

ghost use Rattle.std.specs.Prelude.{◌≡◌};
ghost use Rattle.program_model.specs.Typing.{binary_result, bitwise_result, equality_result, logical_result, number_result, order_result, sum_result};
ghost use Rattle.java_conversions.specs.Operators.{binary_promoted, bitwise_operands, compound_operands, equality_operands, is_concatenated, logical_operands, operands_of, promoted, reference_operands, returns_to, shift_operands, step_operands, sum_operands, taken_if, unary_result, wider};

use crate::casts::{Cast, cast_of, is_comparable};
use crate::types::{BOOLEAN, is_boolean, is_numeric, is_reference, is_text};
use program_model::{BinaryOperator, OperandType, Primitive, Program, UnaryOperator, VType};

/// The type of a number after unary numeric promotion (JLS 5.6): none for what is no number.
pub fn promoted(t: VType) -> Option<OperandType>
    ensures { result ≡ promoted t }
{
    match t {
        VType::Primitive(Primitive::Boolean) => None,
        VType::Primitive(Primitive::Long) => Some(OperandType::Long),
        VType::Primitive(_) => Some(OperandType::Int),
        _ => None,
    }
}

fn wider(a: OperandType, b: OperandType) -> OperandType
    ensures { result ≡ wider a b }
{
    match a {
        OperandType::Long => OperandType::Long,
        _ => b,
    }
}

/// The type of two numbers after binary numeric promotion (JLS 5.6): none where one is no number.
pub fn binary_promoted(a: VType, b: VType) -> Option<OperandType>
    ensures { result ≡ binary_promoted a b }
{
    let left = promoted(a)?;
    let right = promoted(b)?;
    Some(wider(left, right))
}

pub(crate) fn number_result(t: OperandType) -> Option<VType>
    ensures { result ≡ number_result t }
{
    match t {
        OperandType::Int => Some(VType::Primitive(Primitive::Int)),
        OperandType::Long => Some(VType::Primitive(Primitive::Long)),
        _ => None,
    }
}

/// The type of a unary expression (JLS 15.15.3 to 15.15.6): none where the operator does not take the operand.
pub fn unary_result(operator: UnaryOperator, t: VType) -> Option<VType>
    ensures { result ≡ unary_result operator t }
{
    match operator {
        UnaryOperator::Plus | UnaryOperator::Minus | UnaryOperator::Complement => {
            number_result(promoted(t)?)
        }
        UnaryOperator::Not => { if is_boolean(t) { Some(BOOLEAN) } else { None } }
    }
}

fn is_concatenated(t: VType) -> bool
    ensures { result ≡ is_concatenated t }
{
    match t {
        VType::Primitive(_) => true,
        VType::Str => true,
        VType::NullType => true,
        VType::Arr(_) => false,
        VType::Obj(_) => false,
    }
}

fn taken_if(is_taken: bool, t: OperandType) -> Option<OperandType>
    ensures { result ≡ taken_if is_taken t }
{
    if is_taken { Some(t) } else { None }
}

fn sum_operands(a: VType, b: VType) -> Option<OperandType>
    ensures { result ≡ sum_operands a b }
{
    if is_text(a) || is_text(b) {
        taken_if(is_concatenated(a) && is_concatenated(b), OperandType::Text)
    } else {
        binary_promoted(a, b)
    }
}

fn shift_operands(a: VType, b: VType) -> Option<OperandType>
    ensures { result ≡ shift_operands a b }
{
    if is_numeric(b) { promoted(a) } else { None }
}

fn logical_operands(a: VType, b: VType) -> Option<OperandType>
    ensures { result ≡ logical_operands a b }
{
    taken_if(is_boolean(a) && is_boolean(b), OperandType::Boolean)
}

fn bitwise_operands(a: VType, b: VType) -> Option<OperandType>
    ensures { result ≡ bitwise_operands a b }
{
    if is_boolean(a) && is_boolean(b) {
        Some(OperandType::Boolean)
    } else {
        binary_promoted(a, b)
    }
}

fn reference_operands(p: &Program, a: VType, b: VType) -> Option<OperandType>
    ensures { result ≡ reference_operands p.now a b }
{
    taken_if(is_comparable(p, a, b), OperandType::Reference)
}

fn equality_operands(p: &Program, a: VType, b: VType) -> Option<OperandType>
    ensures { result ≡ equality_operands p.now a b }
{
    if is_reference(a) && is_reference(b) {
        reference_operands(p, a, b)
    } else {
        bitwise_operands(a, b)
    }
}

/// The type to which a binary operator takes operands of these types (JLS 15.17 to 15.24): for a shift that of the left
/// one. None where it does not take them, and where the subset leaves the operation out: the concatenation of a string
/// with an array or an object that is no string, and the comparison of two strings by `==` or `!=`.
pub fn operands_of(p: &Program, operator: BinaryOperator, a: VType, b: VType) -> Option<OperandType>
    ensures { result ≡ operands_of p.now operator a b }
{
    match operator {
        BinaryOperator::Multiply => binary_promoted(a, b),
        BinaryOperator::Divide => binary_promoted(a, b),
        BinaryOperator::Remainder => binary_promoted(a, b),
        BinaryOperator::Add => sum_operands(a, b),
        BinaryOperator::Subtract => binary_promoted(a, b),
        BinaryOperator::ShiftLeft => shift_operands(a, b),
        BinaryOperator::ShiftRight => shift_operands(a, b),
        BinaryOperator::ShiftRightUnsigned => shift_operands(a, b),
        BinaryOperator::Less => binary_promoted(a, b),
        BinaryOperator::Greater => binary_promoted(a, b),
        BinaryOperator::LessOrEqual => binary_promoted(a, b),
        BinaryOperator::GreaterOrEqual => binary_promoted(a, b),
        BinaryOperator::Equal => equality_operands(p, a, b),
        BinaryOperator::NotEqual => equality_operands(p, a, b),
        BinaryOperator::And => bitwise_operands(a, b),
        BinaryOperator::Xor => bitwise_operands(a, b),
        BinaryOperator::Or => bitwise_operands(a, b),
        BinaryOperator::ConditionalAnd => logical_operands(a, b),
        BinaryOperator::ConditionalOr => logical_operands(a, b),
    }
}

fn sum_result(t: OperandType) -> Option<VType>
    ensures { result ≡ sum_result t }
{
    match t {
        OperandType::Text => Some(VType::Str),
        _ => number_result(t),
    }
}

fn order_result(t: OperandType) -> Option<VType>
    ensures { result ≡ order_result t }
{
    match t {
        OperandType::Int => Some(BOOLEAN),
        OperandType::Long => Some(BOOLEAN),
        _ => None,
    }
}

fn equality_result(t: OperandType) -> Option<VType>
    ensures { result ≡ equality_result t }
{
    match t {
        OperandType::Text => None,
        _ => Some(BOOLEAN),
    }
}

fn bitwise_result(t: OperandType) -> Option<VType>
    ensures { result ≡ bitwise_result t }
{
    match t {
        OperandType::Boolean => Some(BOOLEAN),
        _ => number_result(t),
    }
}

fn logical_result(t: OperandType) -> Option<VType>
    ensures { result ≡ logical_result t }
{
    match t {
        OperandType::Boolean => Some(BOOLEAN),
        _ => None,
    }
}

/// The type of a binary expression whose operands are taken to the type `t` (JLS 15.17 to 15.24): none where the operator
/// takes no such operands.
pub fn binary_result(operator: BinaryOperator, t: OperandType) -> Option<VType>
    ensures { result ≡ binary_result operator t }
{
    match operator {
        BinaryOperator::Multiply => number_result(t),
        BinaryOperator::Divide => number_result(t),
        BinaryOperator::Remainder => number_result(t),
        BinaryOperator::Add => sum_result(t),
        BinaryOperator::Subtract => number_result(t),
        BinaryOperator::ShiftLeft => number_result(t),
        BinaryOperator::ShiftRight => number_result(t),
        BinaryOperator::ShiftRightUnsigned => number_result(t),
        BinaryOperator::Less => order_result(t),
        BinaryOperator::Greater => order_result(t),
        BinaryOperator::LessOrEqual => order_result(t),
        BinaryOperator::GreaterOrEqual => order_result(t),
        BinaryOperator::Equal => equality_result(t),
        BinaryOperator::NotEqual => equality_result(t),
        BinaryOperator::And => bitwise_result(t),
        BinaryOperator::Xor => bitwise_result(t),
        BinaryOperator::Or => bitwise_result(t),
        BinaryOperator::ConditionalAnd => logical_result(t),
        BinaryOperator::ConditionalOr => logical_result(t),
    }
}

fn returns_to(p: &Program, variable: VType, found: Option<VType>) -> bool
    ensures { result ≡ returns_to p.now variable found }
{
    match found {
        None => false,
        Some(t) => match cast_of(p, t, variable) {
            Cast::Illegal => false,
            Cast::Primitive => true,
            Cast::Reference => true,
        },
    }
}

/// The type to which `variable operator= value` takes its operands, for the variable's and the value's types: as the
/// operator does, where its result may be cast to the variable's type (JLS 15.26.2).
pub fn compound_operands(
    p: &Program,
    operator: BinaryOperator,
    variable: VType,
    value: VType,
) -> Option<OperandType>
    ensures { result ≡ compound_operands p.now operator variable value }
{
    let t = operands_of(p, operator, variable, value)?;
    taken_if(returns_to(p, variable, binary_result(operator, t)), t)
}

/// The type in which `++` and `--` add or subtract 1, for the variable's type (JLS 15.14.2, 15.14.3, 15.15.1, 15.15.2):
/// none where it is no number. The expression has the variable's type.
pub fn step_operands(variable: VType) -> Option<OperandType>
    ensures { result ≡ step_operands variable }
{
    promoted(variable)
}
