//! The rules of method calls (JLS 15.12.3) and of instance creations (JLS 15.9), where overload resolution names the method or
//! constructor, and all arguments have types.

ghost use Rattle.std.specs.Prelude.{◌≡◌};
ghost use Rattle.program_model.specs.Lookups.{class_at, method_at};
ghost use Rattle.java_member_rules.specs.Calls.{call_as, class_call_by, is_abstract_class, is_static_method, new_object_by, object_call_by, object_call_of, result_type, super_call_by, super_call_of, target_form, unqualified_call_by};

use crate::names::result_of;
use java_conversions::type_of_class;
use java_typed_trees::{Answer, CallShape, Facts, Shape, StaticType, mismatch, type_of, value_at};
use program_model::{ClassId, MethodId, MethodKind, Program, VType};
use rlc_base::{Code, Pos};

fn result_type(declared: Option<VType>) -> StaticType
    ensures { result ≡ result_type declared }
{
    match declared {
        None => StaticType::Void,
        Some(found) => StaticType::Value(found),
    }
}

fn call_as(p: &Program, pos: Pos, form: CallShape, method: MethodId) -> Answer
    ensures { result ≡ call_as p.now pos form method }
{
    let facts = Facts {
        static_type: result_type(result_of(p, method)),
        constant: None,
        pos,
    };
    Answer::Is(Shape::Call(form, method), facts)
}

fn is_static_method(p: &Program, method: MethodId) -> bool
    ensures { result ≡ is_static_method (method_at p.now method) }
{
    match p.method(method) {
        None => false,
        Some(found) => matches!(found.kind, MethodKind::Static),
    }
}

/// `m(..)` (JLS 15.12.1): a call of a static method, or of an instance method, on the implied `this`.
pub fn unqualified_call_by(p: &Program, has_this: bool, pos: Pos, method: MethodId) -> Answer
    ensures { result ≡ unqualified_call_by p.now has_this pos method }
{
    if is_static_method(p, method) {
        call_as(p, pos, CallShape::Static, method)
    } else if has_this {
        call_as(p, pos, CallShape::This, method)
    } else {
        mismatch(pos)
    }
}

fn target_form(is_this: bool) -> CallShape
    ensures { result ≡ target_form is_this }
{
    if is_this {
        CallShape::This
    } else {
        CallShape::Other
    }
}

fn object_call_of(p: &Program, is_this: bool, pos: Pos, method: MethodId) -> Answer
    ensures { result ≡ object_call_of p.now is_this pos method }
{
    if is_static_method(p, method) {
        mismatch(pos)
    } else {
        call_as(p, pos, target_form(is_this), method)
    }
}

/// `e.m(..)` (JLS 15.12.1): a call of an instance method. `is_this` says whether e is `this`.
pub fn object_call_by(p: &Program, is_this: bool, pos: Pos, method: MethodId, e: Facts) -> Answer
    ensures { result ≡ object_call_by p.now is_this pos method e }
{
    match type_of(e) {
        None => Answer::Silent(pos),
        Some(_) => object_call_of(p, is_this, pos, method),
    }
}

/// `C.m(..)` (JLS 15.12.1): a call of a static method.
pub fn class_call_by(p: &Program, pos: Pos, method: MethodId) -> Answer
    ensures { result ≡ class_call_by p.now pos method }
{
    if is_static_method(p, method) {
        call_as(p, pos, CallShape::Static, method)
    } else {
        mismatch(pos)
    }
}

fn super_call_of(p: &Program, has_this: bool, has_body: bool, pos: Pos, method: MethodId) -> Answer
    ensures { result ≡ super_call_of p.now has_this has_body pos method }
{
    if has_this {
        if has_body {
            call_as(p, pos, CallShape::Super, method)
        } else {
            Answer::Wrong(Code::NotAbstract, pos)
        }
    } else {
        mismatch(pos)
    }
}

/// `super.m(..)` (JLS 15.12.1, 15.12.3): a call of an instance method that has a body in the super class.
pub fn super_call_by(
    p: &Program,
    has_this: bool,
    has_body: bool,
    pos: Pos,
    method: MethodId,
) -> Answer
    ensures { result ≡ super_call_by p.now has_this has_body pos method }
{
    if is_static_method(p, method) {
        mismatch(pos)
    } else {
        super_call_of(p, has_this, has_body, pos, method)
    }
}

fn is_abstract_class(p: &Program, class: ClassId) -> bool
    ensures { result ≡ is_abstract_class (class_at p.now class) }
{
    match p.class(class) {
        None => false,
        Some(found) => found.is_abstract,
    }
}

/// `new C(..)` (JLS 15.9): of a class that is not abstract, by the constructor that overload resolution names.
pub fn new_object_by(p: &Program, pos: Pos, class: ClassId, constructor: MethodId) -> Answer
    ensures { result ≡ new_object_by p.now pos class constructor }
{
    if is_abstract_class(p, class) {
        Answer::Wrong(Code::NotAbstract, pos)
    } else {
        let facts = value_at(pos, type_of_class(p, class));
        Answer::Is(Shape::NewObject(class, constructor), facts)
    }
}
