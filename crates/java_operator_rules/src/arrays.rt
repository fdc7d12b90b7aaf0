//! The rules of array creations (JLS 15.10.1), elements (JLS 15.10.3) and lengths (JLS 10.7).

ghost use Rattle.std.specs.Prelude.{◌≡◌};
ghost use Rattle.java_operator_rules.specs.Arrays.{array_of, element_by, element_of, length_at, new_array_by, new_array_of};

use java_conversions::{element_type, is_index};
use java_typed_trees::{Answer, Facts, Shape, mismatch, type_of, value_at};
use program_model::{ElementType, Primitive, VType};
use rlc_base::Pos;

fn array_of(element: VType) -> Option<VType>
    ensures { result ≡ array_of element }
{
    match element {
        VType::Primitive(found) => Some(VType::Arr(ElementType::Primitive(found))),
        VType::Str => Some(VType::Arr(ElementType::Str)),
        VType::Arr(_) | VType::Obj(_) | VType::NullType => None,
    }
}

fn new_array_of(pos: Pos, size: VType, array: Option<VType>) -> Answer
    ensures { result ≡ new_array_of pos size array }
{
    match array {
        None => mismatch(pos),
        Some(found) => {
            if is_index(size) {
                Answer::Is(Shape::NewArray, value_at(pos, found))
            } else {
                mismatch(pos)
            }
        }
    }
}

/// `new T[a]` (JLS 15.10.1). The type of the elements is None where its name is refused; the subset has arrays of primitive
/// types and of strings.
pub fn new_array_by(pos: Pos, element: Option<VType>, a: Facts) -> Answer
    ensures { result ≡ new_array_by pos element a }
{
    match element {
        None => Answer::Silent(pos),
        Some(found) => match type_of(a) {
            None => Answer::Silent(pos),
            Some(size) => new_array_of(pos, size, array_of(found)),
        },
    }
}

fn element_of(pos: Pos, array: VType, index: VType) -> Answer
    ensures { result ≡ element_of pos array index }
{
    match array {
        VType::Arr(found) => {
            if is_index(index) {
                Answer::Is(Shape::Element, value_at(pos, element_type(found)))
            } else {
                mismatch(pos)
            }
        }
        _ => mismatch(pos),
    }
}

/// `a[i]` (JLS 15.10.3).
pub fn element_by(pos: Pos, a: Facts, i: Facts) -> Answer
    ensures { result ≡ element_by pos a i }
{
    match type_of(a) {
        None => Answer::Silent(pos),
        Some(array) => match type_of(i) {
            None => Answer::Silent(pos),
            Some(index) => element_of(pos, array, index),
        },
    }
}

/// `a.length` of an array (JLS 10.7).
pub fn length_at(pos: Pos) -> Answer
    ensures { result ≡ length_at pos }
{
    Answer::Is(
        Shape::Length,
        value_at(pos, VType::Primitive(Primitive::Int)),
    )
}
