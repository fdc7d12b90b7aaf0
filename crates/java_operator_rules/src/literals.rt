//! The rule of literals (JLS 15.8.1), by what their text means.

ghost use Rattle.std.specs.Prelude.{◌≡◌};
ghost use Rattle.java_operator_rules.specs.Literals.{constant_in, is_past_limit, literal_as, literal_by, literal_in, literal_under_minus_by, type_of_literal};

use java_literals::LiteralValue;
use java_typed_trees::{Answer, Shape, constant_at, mismatch};
use program_model::{Literal, Primitive, VType};
use rlc_base::Pos;

/// The literal, as a typed body keeps it: the decimal 2^31 and 2^63 wrap to the least value of their type, which a minus leaves as
/// it is.
pub fn literal_in(value: LiteralValue) -> Literal
    ensures { result ≡ literal_in value }
{
    match value {
        LiteralValue::Int(number) => Literal::Number(number),
        LiteralValue::Long(number) => Literal::Number(number),
        LiteralValue::IntLimit => Literal::Number(-2_147_483_648),
        LiteralValue::LongLimit => Literal::Number(-9_223_372_036_854_775_808),
        LiteralValue::Character(unit) => Literal::Character(unit),
        LiteralValue::Boolean(truth) => Literal::Boolean(truth),
        LiteralValue::Text => Literal::Text,
        LiteralValue::Null => Literal::Null,
    }
}

fn type_of_literal(value: LiteralValue) -> VType
    ensures { result ≡ type_of_literal value }
{
    match value {
        LiteralValue::Int(_) | LiteralValue::IntLimit => VType::Primitive(Primitive::Int),
        LiteralValue::Long(_) | LiteralValue::LongLimit => VType::Primitive(Primitive::Long),
        LiteralValue::Character(_) => VType::Primitive(Primitive::Char),
        LiteralValue::Boolean(_) => VType::Primitive(Primitive::Boolean),
        LiteralValue::Text => VType::Str,
        LiteralValue::Null => VType::NullType,
    }
}

fn constant_in(literal: Literal) -> Option<i64>
    ensures { result ≡ constant_in literal }
{
    match literal {
        Literal::Number(number) => Some(number),
        Literal::Character(unit) => Some(i64::from(unit)),
        Literal::Boolean(truth) => Some(if truth { 1 } else { 0 }),
        Literal::Text | Literal::Null => None,
    }
}

fn literal_as(pos: Pos, value: LiteralValue) -> Answer
    ensures { result ≡ literal_as pos value }
{
    let literal = literal_in(value);
    let facts = constant_at(pos, type_of_literal(value), constant_in(literal));
    Answer::Is(Shape::Literal(literal), facts)
}

fn is_past_limit(value: LiteralValue) -> bool
    ensures { result ≡ is_past_limit value }
{
    matches!(value, LiteralValue::IntLimit | LiteralValue::LongLimit)
}

/// A literal that is the operand of a unary minus: the decimal 2^31 and 2^63 may stand there (JLS 3.10.1). `value` is None for
/// a text that is no literal of the subset.
pub fn literal_under_minus_by(pos: Pos, value: Option<LiteralValue>) -> Answer
    ensures { result ≡ literal_under_minus_by pos value }
{
    match value {
        None => mismatch(pos),
        Some(found) => literal_as(pos, found),
    }
}

/// A literal anywhere else (JLS 15.8.1). `value` is None for a text that is no literal of the subset.
pub fn literal_by(pos: Pos, value: Option<LiteralValue>) -> Answer
    ensures { result ≡ literal_by pos value }
{
    match value {
        None => mismatch(pos),
        Some(found) => {
            if is_past_limit(found) {
                mismatch(pos)
            } else {
                literal_as(pos, found)
            }
        }
    }
}
