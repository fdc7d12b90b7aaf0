//! Types as they are written.

ghost use Rattle.std.specs.Prelude.{◌≡◌};
ghost use Rattle.class_names.specs.ClassNames.{name_in, class_at};
ghost use Rattle.class_names.specs.Meanings.{has, unit_of};
ghost use Rattle.class_names.specs.WrittenTypes.{class_type, is_string, primitive_of, primitive_type, string_type, type_of_class, type_of_meaning, written_type};

use crate::levels::meaning_of;
use crate::meaning::Meaning;
use crate::names::ClassNames;
use crate::scope::Scope;
use java_syntax::{PrimitiveName, Typ, TypeName};
use program_model::{ClassId, ElementType, Primitive, VType};

fn primitive_of(name: PrimitiveName) -> Primitive
    ensures { result ≡ primitive_of name }
{
    match name {
        PrimitiveName::Boolean => Primitive::Boolean,
        PrimitiveName::Byte => Primitive::Byte,
        PrimitiveName::Char => Primitive::Char,
        PrimitiveName::Int => Primitive::Int,
        PrimitiveName::Long => Primitive::Long,
    }
}

// The primitive type, or the array of it.
fn primitive_type(primitive: Primitive, is_array: bool) -> VType
    ensures { result ≡ primitive_type primitive is_array }
{
    if is_array {
        VType::Arr(ElementType::Primitive(primitive))
    } else {
        VType::Primitive(primitive)
    }
}

// Whether the class is `java.lang.String`.
fn is_string(names: &ClassNames, class: ClassId) -> bool
    ensures { result ≡ has is_string (class_at names.now class) }
{
    match names.class(class) {
        None => false,
        Some(_) => names.name(class) == b"java.lang.String".as_slice(),
    }
}

// The type of `String`, or of an array of it.
fn string_type(is_array: bool) -> VType
    ensures { result ≡ string_type is_array }
{
    if is_array {
        VType::Arr(ElementType::Str)
    } else {
        VType::Str
    }
}

// The type of another class; there is no array of it.
fn class_type(class: ClassId, is_array: bool) -> Option<VType>
    ensures { result ≡ class_type class is_array }
{
    if is_array {
        None
    } else {
        Some(VType::Obj(class))
    }
}

// The type of a class, or of an array of it.
fn type_of_class(names: &ClassNames, class: ClassId, is_array: bool) -> Option<VType>
    ensures { result ≡ type_of_class names.now class is_array }
{
    if is_string(names, class) {
        Some(string_type(is_array))
    } else {
        class_type(class, is_array)
    }
}

// The type of what a name means, or of an array of it.
fn type_of_meaning(names: &ClassNames, meaning: Meaning, is_array: bool) -> Option<VType>
    ensures { result ≡ type_of_meaning names.now meaning is_array }
{
    match meaning {
        Meaning::Named(class) => type_of_class(names, class, is_array),
        Meaning::NoClass => None,
        Meaning::TwoClasses => None,
    }
}

/// The type that is written in a compilation unit (JLS 4.1). There is none where its name means no class or two, and where it
/// is an array over another class than `String`.
pub fn written_type(names: &ClassNames, scope: &Scope, typ: &Typ) -> Option<VType>
    ensures { result ≡ written_type names.now (unit_of scope.now) typ.now }
{
    match &typ.name {
        TypeName::Primitive(primitive) => Some(primitive_type(
            primitive_of(*primitive),
            typ.is_array,
        )),
        TypeName::Named(name) => {
            let meaning = meaning_of(names, scope, name.bytes());
            type_of_meaning(names, meaning, typ.is_array)
        }
    }
}
