//! Kinds of types (JLS 4.1).

ghost use Rattle.std.specs.Prelude.{◌≡◌};
ghost use Rattle.program_model.specs.Typing.{class_of, element_type};
ghost use Rattle.program_model.specs.declared.kinds.ElementType.TheVariants as elements;
ghost use Rattle.java_conversions.specs.Types.{is_boolean, is_index, is_null_type, is_numeric, is_reference, is_same_element, is_same_primitive, is_text, is_throwable, type_of_class};

use program_model::{ClassId, ElementType, Primitive, Program, VType, under};

pub(crate) const BOOLEAN: VType = VType::Primitive(Primitive::Boolean);

/// Whether the type is `boolean`, as that of a condition must be (JLS 14.9, 14.12 to 14.14, 15.25).
pub fn is_boolean(t: VType) -> bool
    ensures { result ≡ is_boolean t }
{
    matches!(t, VType::Primitive(Primitive::Boolean))
}

/// Whether the type is numeric (JLS 4.2): `byte`, `char`, `int` or `long`.
pub fn is_numeric(t: VType) -> bool
    ensures { result ≡ is_numeric t }
{
    match t {
        VType::Primitive(Primitive::Boolean) => false,
        VType::Primitive(_) => true,
        _ => false,
    }
}

/// Whether the type is a reference type (JLS 4.3) or that of `null`.
pub fn is_reference(t: VType) -> bool
    ensures { result ≡ is_reference t }
{
    !matches!(t, VType::Primitive(_))
}

pub(crate) fn is_null_type(t: VType) -> bool
    ensures { result ≡ is_null_type t }
{
    matches!(t, VType::NullType)
}

pub(crate) fn is_text(t: VType) -> bool
    ensures { result ≡ is_text t }
{
    matches!(t, VType::Str)
}

/// Whether an array's index (JLS 15.10.3) and a new array's size (JLS 15.10.1) may have the type: one whose unary
/// promotion is `int`.
pub fn is_index(t: VType) -> bool
    ensures { result ≡ is_index t }
{
    match t {
        VType::Primitive(Primitive::Byte) => true,
        VType::Primitive(Primitive::Char) => true,
        VType::Primitive(Primitive::Int) => true,
        _ => false,
    }
}

/// The type of a class or interface: `Str` for `java.lang.String`.
pub fn type_of_class(p: &Program, class: ClassId) -> VType
    ensures { result ≡ type_of_class p.now class }
{
    if class.0 == p.core.string.0 {
        VType::Str
    } else {
        VType::Obj(class)
    }
}

/// The class from which the members of a value of the type come (JLS 4.3.2, 10.7): `Object` for an array, none for a
/// primitive type and for that of `null`.
pub fn class_of(p: &Program, t: VType) -> Option<ClassId>
    ensures { result ≡ class_of p.now t }
{
    match t {
        VType::Primitive(_) => None,
        VType::Str => Some(p.core.string),
        VType::Arr(_) => Some(p.core.object),
        VType::Obj(class) => Some(class),
        VType::NullType => None,
    }
}

/// The type of an array's elements (JLS 10.1).
pub fn element_type(t: ElementType) -> VType
    ensures { result ≡ element_type t }
{
    match t {
        ElementType::Primitive(primitive) => VType::Primitive(primitive),
        ElementType::Str => VType::Str,
    }
}

/// Whether a value of the type may be thrown (JLS 14.18): `null`, or one of a class under `Throwable`.
pub fn is_throwable(p: &Program, t: VType) -> bool
    ensures { result ≡ is_throwable p.now t }
{
    match t {
        VType::Obj(class) => under(p, class, p.core.throwable),
        VType::Str => under(p, p.core.string, p.core.throwable),
        VType::NullType => true,
        VType::Arr(_) => false,
        VType::Primitive(_) => false,
    }
}

pub(crate) fn is_same_primitive(a: Primitive, b: Primitive) -> bool
    ensures { result ≡ is_same_primitive a b }
{
    match a {
        Primitive::Boolean => matches!(b, Primitive::Boolean),
        Primitive::Byte => matches!(b, Primitive::Byte),
        Primitive::Char => matches!(b, Primitive::Char),
        Primitive::Int => matches!(b, Primitive::Int),
        Primitive::Long => matches!(b, Primitive::Long),
    }
}

fn is_element_of(a: Primitive, b: ElementType) -> bool
    ensures { result ≡ is_same_element (elements.Primitive a) b }
{
    match b {
        ElementType::Primitive(b) => is_same_primitive(a, b),
        ElementType::Str => false,
    }
}

pub(crate) fn is_same_element(a: ElementType, b: ElementType) -> bool
    ensures { result ≡ is_same_element a b }
{
    match a {
        ElementType::Primitive(a) => is_element_of(a, b),
        ElementType::Str => matches!(b, ElementType::Str),
    }
}
