//! What a method call (JLS 15.12) or an instance creation (JLS 15.9) means, by the typings of its parts.

ghost use Rattle.std.specs.Prelude.{◌≡◌, IfOk, Some, map};
ghost use Rattle.program_model.specs.Lookups.{class_at, method_at};
ghost use Rattle.java_member_rules.specs.Calls.{is_abstract_class};
ghost use Rattle.java_call_rules.specs.Calls.{call_by, class_call, is_bodied, new_by, new_of, object_call, super_by, super_class};
ghost use Rattle.java_expression_parts.specs.Surroundings.{surroundings_of};
ghost use Rattle.java_expression_parts.specs.TypedParts.{typing_of};

use crate::overloads::{MethodResolution, members_named, resolution};
use class_members::{constructors_of, is_interface, is_library, super_of};
use java_conversions::class_of;
use java_expression_parts::{BodyScope, ExpressionTyping, class_of_name};
use java_member_rules::{
    class_call_by, new_object_by, object_call_by, super_call_by, unqualified_call_by,
};
use java_syntax::Name;
use java_typed_trees::{Answer, Facts, type_of};
use program_model::{ClassId, MethodId, Program};
use rlc_base::{Code, NoMemory, Pos, Text};
use std::alloc::Global;

/// `m(..)` (JLS 15.12.1): a member of the class.
pub(crate) fn call_by(
    alloc: Global,
    scope: &BodyScope,
    pos: Pos,
    name: &Text,
    arguments: &[ExpressionTyping],
) -> Result<Answer, NoMemory>
    ensures { IfOk result (λ r. r ≡ call_by (surroundings_of scope.now) pos name.now (map typing_of arguments.now)) }
{
    let p = scope.scope.program;
    let candidates = members_named(alloc, scope, name, Some(scope.scope.class))?;
    match resolution(alloc, p, pos, &candidates, arguments)? {
        MethodResolution::NoMethod(answer) => Ok(answer),
        MethodResolution::Method(method) => {
            Ok(unqualified_call_by(p, scope.scope.has_this, pos, method))
        }
    }
}

/// `C.m(..)` (JLS 15.12.1): a member of the class.
pub(crate) fn class_call(
    alloc: Global,
    scope: &BodyScope,
    pos: Pos,
    name: &Text,
    class: ClassId,
    arguments: &[ExpressionTyping],
) -> Result<Answer, NoMemory>
    ensures { IfOk result (λ r. r ≡ class_call (surroundings_of scope.now) pos name.now class (map typing_of arguments.now)) }
{
    let p = scope.scope.program;
    let candidates = members_named(alloc, scope, name, Some(class))?;
    match resolution(alloc, p, pos, &candidates, arguments)? {
        MethodResolution::NoMethod(answer) => Ok(answer),
        MethodResolution::Method(method) => Ok(class_call_by(p, pos, method)),
    }
}

/// `e.m(..)` (JLS 15.12.1): a member of the class of e's type. A primitive type and `null` have none, and an array has those of
/// `Object` (JLS 10.7).
pub(crate) fn object_call(
    alloc: Global,
    scope: &BodyScope,
    is_this: bool,
    pos: Pos,
    name: &Text,
    e: Facts,
    arguments: &[ExpressionTyping],
) -> Result<Answer, NoMemory>
    ensures { IfOk result (λ r. r ≡ object_call (surroundings_of scope.now) is_this pos name.now e (map typing_of arguments.now)) }
{
    match type_of(e) {
        None => Ok(Answer::Silent(pos)),
        Some(vtype) => {
            let p = scope.scope.program;
            let candidates = members_named(alloc, scope, name, class_of(p, vtype))?;
            match resolution(alloc, p, pos, &candidates, arguments)? {
                MethodResolution::NoMethod(answer) => Ok(answer),
                MethodResolution::Method(method) => Ok(object_call_by(p, is_this, pos, method, e)),
            }
        }
    }
}

fn is_bodied(p: &Program, method: MethodId) -> bool
    ensures { result ≡ is_bodied p.now (method_at p.now method) }
{
    match p.method(method) {
        None => false,
        Some(m) => is_library(p, m.class) || !(m.is_abstract || is_interface(p, m.class)),
    }
}

fn super_class(scope: &BodyScope) -> Option<ClassId>
    ensures { result ≡ super_class (surroundings_of scope.now) }
{
    super_of(scope.scope.program, scope.scope.class)
}

/// `super.m(..)` (JLS 15.12.1): a member of the super class.
pub(crate) fn super_by(
    alloc: Global,
    scope: &BodyScope,
    pos: Pos,
    name: &Text,
    arguments: &[ExpressionTyping],
) -> Result<Answer, NoMemory>
    ensures { IfOk result (λ r. r ≡ super_by (surroundings_of scope.now) pos name.now (map typing_of arguments.now)) }
{
    let p = scope.scope.program;
    let candidates = members_named(alloc, scope, name, super_class(scope))?;
    match resolution(alloc, p, pos, &candidates, arguments)? {
        MethodResolution::NoMethod(answer) => Ok(answer),
        MethodResolution::Method(method) => Ok(super_call_by(
            p,
            scope.scope.has_this,
            is_bodied(p, method),
            pos,
            method,
        )),
    }
}

fn is_abstract_class(p: &Program, class: ClassId) -> bool
    ensures { result ≡ is_abstract_class (class_at p.now class) }
{
    match p.class(class) {
        None => false,
        Some(found) => found.is_abstract,
    }
}

fn new_of_class(
    alloc: Global,
    scope: &BodyScope,
    pos: Pos,
    class: ClassId,
    arguments: &[ExpressionTyping],
) -> Result<Answer, NoMemory>
    ensures { IfOk result (λ r. r ≡ new_of (surroundings_of scope.now) pos (Some class) (map typing_of arguments.now)) }
{
    let p = scope.scope.program;
    if is_abstract_class(p, class) {
        return Ok(Answer::Wrong(Code::NotAbstract, pos));
    }
    let candidates = constructors_of(alloc, p, scope.scope.class, class)?;
    match resolution(alloc, p, pos, &candidates, arguments)? {
        MethodResolution::NoMethod(answer) => Ok(answer),
        MethodResolution::Method(method) => Ok(new_object_by(p, pos, class, method)),
    }
}

/// `new C(..)` (JLS 15.9): silent where the name of the class is refused.
pub(crate) fn new_by(
    alloc: Global,
    scope: &BodyScope,
    pos: Pos,
    class: &Name,
    arguments: &[ExpressionTyping],
) -> Result<Answer, NoMemory>
    ensures { IfOk result (λ r. r ≡ new_by (surroundings_of scope.now) pos class.now (map typing_of arguments.now)) }
{
    match class_of_name(scope, &class.text) {
        None => Ok(Answer::Silent(pos)),
        Some(found) => new_of_class(alloc, scope, pos, found, arguments),
    }
}
