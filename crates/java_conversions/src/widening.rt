//! Conversions to a wanted type: of invocation contexts (JLS 5.3) and of assignment contexts (JLS 5.2).

ghost use Rattle.std.specs.Prelude.{◌≡◌};
ghost use Rattle.java_conversions.specs.Conversions.{array_fits, class_fits, fits, is_assignable, is_byte, is_char, is_narrow_value, narrows, primitive_fits, text_fits, widens};

use crate::types::{is_index, is_reference, is_same_element};
use program_model::{ClassId, ElementType, Primitive, Program, VType, under};

/// Whether the first type is the second (JLS 5.1.1) or widens to it (JLS 5.1.2).
pub fn widens(from: Primitive, to: Primitive) -> bool
    ensures { result ≡ widens from to }
{
    match from {
        Primitive::Boolean => matches!(to, Primitive::Boolean),
        Primitive::Byte => matches!(to, Primitive::Byte | Primitive::Int | Primitive::Long),
        Primitive::Char => matches!(to, Primitive::Char | Primitive::Int | Primitive::Long),
        Primitive::Int => matches!(to, Primitive::Int | Primitive::Long),
        Primitive::Long => matches!(to, Primitive::Long),
    }
}

fn primitive_fits(from: Primitive, to: VType) -> bool
    ensures { result ≡ primitive_fits from to }
{
    match to {
        VType::Primitive(to) => widens(from, to),
        _ => false,
    }
}

fn class_fits(p: &Program, from: ClassId, to: VType) -> bool
    ensures { result ≡ class_fits p.now from to }
{
    match to {
        VType::Obj(to) => under(p, from, to),
        _ => false,
    }
}

fn text_fits(p: &Program, to: VType) -> bool
    ensures { result ≡ text_fits p.now to }
{
    match to {
        VType::Str => true,
        VType::Obj(to) => under(p, p.core.string, to),
        _ => false,
    }
}

fn array_fits(p: &Program, from: ElementType, to: VType) -> bool
    ensures { result ≡ array_fits p.now from to }
{
    match to {
        VType::Arr(to) => is_same_element(from, to),
        VType::Obj(to) => to.0 == p.core.object.0,
        _ => false,
    }
}

/// Whether a value of the first type may be passed where the second is wanted, in a strict invocation context (JLS 5.3):
/// by identity, widening primitive or widening reference conversion, and `null` to any reference type.
pub fn fits(p: &Program, from: VType, to: VType) -> bool
    ensures { result ≡ fits p.now from to }
{
    match from {
        VType::Primitive(from) => primitive_fits(from, to),
        VType::Str => text_fits(p, to),
        VType::Arr(from) => array_fits(p, from, to),
        VType::Obj(from) => class_fits(p, from, to),
        VType::NullType => is_reference(to),
    }
}

fn is_byte(value: i64) -> bool
    ensures { result ≡ is_byte value }
{
    -128 <= value && value <= 127
}

fn is_char(value: i64) -> bool
    ensures { result ≡ is_char value }
{
    0 <= value && value <= 65535
}

pub(crate) fn is_narrow_value(value: i64, to: VType) -> bool
    ensures { result ≡ is_narrow_value value to }
{
    match to {
        VType::Primitive(Primitive::Byte) => is_byte(value),
        VType::Primitive(Primitive::Char) => is_char(value),
        _ => false,
    }
}

/// Whether a constant of type `byte`, `char` or `int` may be assigned to a `byte` or `char` variable because its value is
/// one of that type (JLS 5.2). `constant` is the value of the expression, where it is constant (JLS 15.29).
pub fn narrows(constant: Option<i64>, from: VType, to: VType) -> bool
    ensures { result ≡ narrows constant from to }
{
    match constant {
        None => false,
        Some(value) => is_index(from) && is_narrow_value(value, to),
    }
}

/// Whether an expression of the first type, with its value where it is constant, may be assigned to a variable of the
/// second (JLS 5.2).
pub fn is_assignable(p: &Program, constant: Option<i64>, from: VType, to: VType) -> bool
    ensures { result ≡ is_assignable p.now constant from to }
{
    fits(p, from, to) || narrows(constant, from, to)
}
