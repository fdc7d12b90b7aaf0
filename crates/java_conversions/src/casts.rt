//! Casting contexts (JLS 5.5), and the two tests that rest on them.

ghost use Rattle.std.specs.Prelude.{◌≡◌};
ghost use Rattle.java_conversions.specs.Casts.{are_disjoint, array_casts, cast_of, class_casts, classes_cast, is_comparable, is_final, is_interface, is_tested, primitive_casts, primitives_cast, reference_casts, stands_apart, stands_apart_from_class, stands_apart_from_interface, text_casts};

use crate::types::{is_null_type, is_reference, is_same_element, is_text};
use program_model::{ClassId, ElementType, Primitive, Program, VType, under};

/// What a cast is (JLS 5.5).
#[derive(Clone, Copy, Debug, PartialEq, Eq)]
pub enum Cast {
    /// From a primitive type to a primitive type.
    Primitive,
    /// From a reference type to a reference type.
    Reference,
    /// No casting conversion exists.
    Illegal,
}

pub(crate) fn is_interface(p: &Program, class: ClassId) -> bool
    ensures { result ≡ is_interface p.now class }
{
    match p.class(class) {
        None => false,
        Some(found) => found.interface,
    }
}

fn is_final(p: &Program, class: ClassId) -> bool
    ensures { result ≡ is_final p.now class }
{
    match p.class(class) {
        None => false,
        Some(found) => found.is_final,
    }
}

fn stands_apart_from_interface(p: &Program, is_other_interface: bool, other: ClassId) -> bool
    ensures { result ≡ stands_apart_from_interface p.now is_other_interface other }
{
    if is_other_interface {
        false
    } else {
        is_final(p, other)
    }
}

fn stands_apart_from_class(p: &Program, class: ClassId, is_other_interface: bool) -> bool
    ensures { result ≡ stands_apart_from_class p.now class is_other_interface }
{
    if is_other_interface {
        is_final(p, class)
    } else {
        true
    }
}

fn stands_apart(p: &Program, is_class_interface: bool, class: ClassId, other: ClassId) -> bool
    ensures { result ≡ stands_apart p.now is_class_interface class other }
{
    if is_class_interface {
        stands_apart_from_interface(p, is_interface(p, other), other)
    } else {
        stands_apart_from_class(p, class, is_interface(p, other))
    }
}

// Whether no object is of both (JLS 5.1.6.1).
fn are_disjoint(p: &Program, class: ClassId, other: ClassId) -> bool
    ensures { result ≡ are_disjoint p.now class other }
{
    let is_related = under(p, class, other) || under(p, other, class);
    !is_related && stands_apart(p, is_interface(p, class), class, other)
}

fn classes_cast(p: &Program, from: ClassId, to: ClassId) -> bool
    ensures { result ≡ classes_cast p.now from to }
{
    !are_disjoint(p, from, to)
}

fn class_casts(p: &Program, from: ClassId, to: VType) -> bool
    ensures { result ≡ class_casts p.now from to }
{
    match to {
        VType::Obj(to) => classes_cast(p, from, to),
        VType::Str => classes_cast(p, from, p.core.string),
        VType::Arr(_) => from.0 == p.core.object.0,
        _ => false,
    }
}

fn text_casts(p: &Program, to: VType) -> bool
    ensures { result ≡ text_casts p.now to }
{
    match to {
        VType::Str => true,
        VType::Obj(to) => classes_cast(p, p.core.string, to),
        _ => false,
    }
}

fn array_casts(p: &Program, from: ElementType, to: VType) -> bool
    ensures { result ≡ array_casts p.now from to }
{
    match to {
        VType::Arr(to) => is_same_element(from, to),
        VType::Obj(to) => to.0 == p.core.object.0,
        _ => false,
    }
}

fn reference_casts(p: &Program, from: VType, to: VType) -> bool
    ensures { result ≡ reference_casts p.now from to }
{
    match from {
        VType::Primitive(_) => false,
        VType::Str => text_casts(p, to),
        VType::Arr(from) => array_casts(p, from, to),
        VType::Obj(from) => class_casts(p, from, to),
        VType::NullType => is_reference(to),
    }
}

fn primitives_cast(from: Primitive, to: Primitive) -> bool
    ensures { result ≡ primitives_cast from to }
{
    match from {
        Primitive::Boolean => matches!(to, Primitive::Boolean),
        Primitive::Byte | Primitive::Char | Primitive::Int | Primitive::Long => {
            !matches!(to, Primitive::Boolean)
        }
    }
}

fn primitive_casts(from: VType, to: Primitive) -> bool
    ensures { result ≡ primitive_casts from to }
{
    match from {
        VType::Primitive(from) => primitives_cast(from, to),
        _ => false,
    }
}

/// What a cast from the first type to the second is (JLS 5.5, 15.16).
pub fn cast_of(p: &Program, from: VType, to: VType) -> Cast
    ensures { result ≡ cast_of p.now from to }
{
    match to {
        VType::Primitive(to) => {
            if primitive_casts(from, to) {
                Cast::Primitive
            } else {
                Cast::Illegal
            }
        }
        _ => {
            if reference_casts(p, from, to) {
                Cast::Reference
            } else {
                Cast::Illegal
            }
        }
    }
}

/// Whether `instanceof` may test an operand of the first type for the second (JLS 15.20.2).
pub fn is_tested(p: &Program, operand: VType, tested: VType) -> bool
    ensures { result ≡ is_tested p.now operand tested }
{
    !is_null_type(tested) && reference_casts(p, operand, tested)
}

/// Whether `==` and `!=` may compare two references of these types: a cast takes one to the type of the other
/// (JLS 15.21.3). The comparison of two strings is left out of the subset.
pub fn is_comparable(p: &Program, a: VType, b: VType) -> bool
    ensures { result ≡ is_comparable p.now a b }
{
    let are_texts = is_text(a) && is_text(b);
    !are_texts && (reference_casts(p, a, b) || reference_casts(p, b, a))
}
