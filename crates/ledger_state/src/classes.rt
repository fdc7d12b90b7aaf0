//! Of which classes and types values are.

ghost use Rattle.std.specs.Prelude.{◌≡◌};
ghost use Rattle.ledger_state.specs.Classes.{array_of, class_in, has_element, is_instance, is_same_element, is_same_primitive, is_under_class, runtime_class};
ghost use Rattle.ledger_state.specs.Heaps.{object_at};

use crate::array::{ArrayObject, array_of};
use crate::heap::Heap;
use crate::value::Value;
use program_model::{ClassId, ElementType, Primitive, Program, VType, under};

fn class_in(heap: &Heap, number: u64) -> Option<ClassId>
    ensures { result ≡ class_in (object_at heap.now number) }
{
    match heap.object(number) {
        None => None,
        Some(object) => Some(object.class),
    }
}

/// The run-time class of a value, where it has one. An array has that of `Object`, whose methods it has (JLS 10.7).
pub fn runtime_class(p: &Program, heap: &Heap, value: Value) -> Option<ClassId>
    ensures { result ≡ runtime_class p.now heap.now value }
{
    match value {
        Value::Object(number) => class_in(heap, number),
        Value::Text => Some(p.core.string),
        Value::Array(_) => Some(p.core.object),
        Value::Nothing | Value::Null | Value::Number(_) => None,
    }
}

fn is_under_class(p: &Program, class: Option<ClassId>, other: ClassId) -> bool
    ensures { result ≡ is_under_class p.now class other }
{
    match class {
        None => false,
        Some(class) => under(p, class, other),
    }
}

fn is_same_primitive(a: Primitive, b: Primitive) -> bool
    ensures { result ≡ is_same_primitive a b }
{
    match (a, b) {
        (Primitive::Boolean, Primitive::Boolean)
        | (Primitive::Byte, Primitive::Byte)
        | (Primitive::Char, Primitive::Char)
        | (Primitive::Int, Primitive::Int)
        | (Primitive::Long, Primitive::Long) => true,
        _ => false,
    }
}

fn is_same_element(a: ElementType, b: ElementType) -> bool
    ensures { result ≡ is_same_element a b }
{
    match (a, b) {
        (ElementType::Primitive(a), ElementType::Primitive(b)) => is_same_primitive(a, b),
        (ElementType::Str, ElementType::Str) => true,
        _ => false,
    }
}

fn has_element(arrays: &[ArrayObject], element: ElementType, value: Value) -> bool
    ensures { result ≡ has_element element (array_of arrays.now value) }
{
    match array_of(arrays, value) {
        None => false,
        Some(array) => is_same_element(array.element, element),
    }
}

/// Whether the value is no null and is of the type (JLS 15.20.2).
pub fn is_instance(
    p: &Program,
    heap: &Heap,
    arrays: &[ArrayObject],
    vtype: VType,
    value: Value,
) -> bool
    ensures { result ≡ is_instance p.now heap.now arrays.now vtype value }
{
    match vtype {
        VType::Obj(class) => is_under_class(p, runtime_class(p, heap, value), class),
        VType::Str => value.is_text(),
        VType::Arr(element) => has_element(arrays, element, value),
        VType::Primitive(_) | VType::NullType => false,
    }
}
