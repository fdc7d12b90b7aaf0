//! What the flow rules ask of a body beside its steps.

ghost use Rattle.std.specs.Prelude.{◌≡◌};
ghost use Rattle.std.specs.Option.{option_copied};
ghost use Rattle.must_call_sets.specs.Bodies.{alias_position, fields_of, has_field_place, is_alias_constructor, is_class_of, is_constructor, is_constructor_kind, is_extended, is_extended_constructor, is_finalizer, is_super, method_of, resets_this};

use crate::signatures::{is_must_call_method, is_position};
use program_model::{BodyId, ClassId, FieldId, Method, MethodKind, Program};

/// The method or constructor whose body it is.
pub fn method_of(p: &Program, body: BodyId) -> Option<&Method>
    ensures { option_copied result ≡ method_of p.now body }
{
    match p.body(body) {
        None => None,
        Some(found) => p.method(found.method),
    }
}

/// Whether a method of this kind is a constructor.
pub fn is_constructor_kind(kind: MethodKind) -> bool
    ensures { result ≡ is_constructor_kind kind }
{
    match kind {
        MethodKind::Ctor => true,
        _ => false,
    }
}

/// Whether the body is that of a constructor.
pub fn is_constructor(p: &Program, body: BodyId) -> bool
    ensures { result ≡ is_constructor p.now body }
{
    match method_of(p, body) {
        None => false,
        Some(method) => is_constructor_kind(method.kind),
    }
}

/// The position whose resource the body's result, or the constructed object, is an alias of.
pub fn alias_position(p: &Program, body: BodyId) -> Option<u32>
    ensures { result ≡ alias_position p.now body }
{
    match method_of(p, body) {
        None => None,
        Some(method) => method.sig.alias,
    }
}

/// Whether the body is that of a constructor whose object is an alias of an argument's resource.
pub fn is_alias_constructor(p: &Program, body: BodyId) -> bool
    ensures { result ≡ is_alias_constructor p.now body }
{
    is_constructor(p, body) && alias_position(p, body).is_some()
}

/// Whether the body's method creates the obligation of `this` anew.
pub fn resets_this(p: &Program, body: BodyId) -> bool
    ensures { result ≡ resets_this p.now body }
{
    match method_of(p, body) {
        None => false,
        Some(method) => is_position(method.sig.reset, 0),
    }
}

fn is_super(class: ClassId, sup: Option<ClassId>) -> bool
    ensures { result ≡ is_super class sup }
{
    match sup {
        None => false,
        Some(found) => class == found,
    }
}

/// Whether a class extends the class.
pub fn is_extended(p: &Program, class: ClassId) -> bool
    ensures { result ≡ is_extended p.now class }
{
    p.classes.iter().any(|other| is_super(class, other.sup))
}

/// Whether the body is that of a constructor of a class that another class extends.
pub fn is_extended_constructor(p: &Program, body: BodyId) -> bool
    ensures { result ≡ is_extended_constructor p.now body }
{
    match method_of(p, body) {
        None => false,
        Some(method) => is_constructor_kind(method.kind) && is_extended(p, method.class),
    }
}

/// Whether the body is that of a must-call method of its class.
pub fn is_finalizer(p: &Program, body: BodyId) -> bool
    ensures { result ≡ is_finalizer p.now body }
{
    match method_of(p, body) {
        None => false,
        Some(method) => is_must_call_method(p, method.class, method),
    }
}

fn is_class_of(p: &Program, class: ClassId, body: BodyId) -> bool
    ensures { result ≡ is_class_of class (method_of p.now body) }
{
    match method_of(p, body) {
        None => false,
        Some(method) => class == method.class,
    }
}

/// Whether the field has a place of its own in the body: it is an owning field that the body's class declares.
pub fn has_field_place(p: &Program, body: BodyId, field: FieldId) -> bool
    ensures { result ≡ has_field_place p.now body field }
{
    match p.field(field) {
        None => false,
        Some(found) => found.owning && is_class_of(p, found.class, body),
    }
}

/// The fields of the class of the body's method, in textual order.
pub fn fields_of(p: &Program, body: BodyId) -> &[FieldId]
    ensures { result.now ≡ fields_of p.now body }
{
    match method_of(p, body) {
        None => &[],
        Some(method) => match p.class(method.class) {
            None => &[],
            Some(class) => &class.fields,
        },
    }
}
