//! The resources of `try` (JLS 14.20.3).

ghost use Rattle.std.specs.Prelude.{◌≡◌, ◌++◌, IfOk, OnOk, false, []};
ghost use Rattle.java_typed_trees.specs.Answers.{value_at};
ghost use Rattle.java_call_rules.specs.Calls.{members_named, object_call};
ghost use Rattle.java_call_rules.specs.Surroundings.{surroundings_of};
ghost use Rattle.java_statement_rules.specs.Resources.{class_type, close_name, closeable_cases, closing_by, is_closeable, is_under_both};

use crate::statements::count_unless;
use class_members::methods_named;
use java_call_rules::{BodyScope, MethodResolution, class_of_name, object_call_by, resolution};
use java_conversions::{class_of, type_of_class};
use java_syntax::Name;
use java_typed_trees::{Answer, value_at};
use program_model::{ClassId, MethodId, Program, VType, under};
use rlc_base::{NoMemory, Pos, Refusal};
use std::alloc::Global;

/// The type that the name of a class means (JLS 6.5.5): none where it is refused.
pub fn class_type(scope: &BodyScope, name: &Name) -> Option<VType>
    ensures { result ≡ class_type (surroundings_of scope.now) name.now }
{
    match class_of_name(scope, &name.text) {
        None => None,
        Some(class) => Some(type_of_class(scope.scope.program, class)),
    }
}

fn is_under_both(p: &Program, class: Option<ClassId>, other: Option<ClassId>) -> bool
    ensures { result ≡ is_under_both p.now class other }
{
    match class {
        None => false,
        Some(class) => match other {
            None => false,
            Some(other) => under(p, class, other),
        },
    }
}

fn is_closeable(scope: &BodyScope, vtype: VType) -> bool
    ensures { result ≡ is_closeable (surroundings_of scope.now) vtype }
{
    let p = scope.scope.program;
    is_under_both(
        p,
        class_of(p, vtype),
        scope.names.find(b"java.lang.AutoCloseable"),
    )
}

/// Counts the refusal of a resource whose type is not `java.lang.AutoCloseable` or under it. The place is that of the `try`.
pub fn count_closeable(
    scope: &BodyScope,
    pos: Pos,
    vtype: Option<VType>,
    refusals: &mut Vec<Refusal>,
) -> Result<(), NoMemory>
    ensures { OnOk result (refusals.new.items ≡ refusals.old.items ++ closeable_cases (surroundings_of scope.now) pos vtype) }
{
    match vtype {
        None => Ok(()),
        Some(found) => count_unless(is_closeable(scope, found), pos, refusals),
    }
}

fn close_methods(
    alloc: Global,
    scope: &BodyScope,
    class: Option<ClassId>,
) -> Result<Vec<MethodId>, NoMemory>
    ensures { IfOk result (λ v. v.items ≡ members_named (surroundings_of scope.now) close_name class) }
{
    match class {
        None => Ok(Vec::new(alloc)),
        Some(found) => methods_named(
            alloc,
            scope.scope.program,
            scope.scope.class,
            found,
            b"close",
        ),
    }
}

fn closing_of(alloc: Global, scope: &BodyScope, pos: Pos, vtype: VType) -> Result<Answer, NoMemory>
    ensures { IfOk result (λ r. r ≡ object_call (surroundings_of scope.now) false pos close_name (value_at pos vtype) []) }
{
    let p = scope.scope.program;
    let candidates = close_methods(alloc, scope, class_of(p, vtype))?;
    match resolution(alloc, p, pos, &candidates, &[])? {
        MethodResolution::NoMethod(answer) => Ok(answer),
        MethodResolution::Method(method) => {
            Ok(object_call_by(p, false, pos, method, value_at(pos, vtype)))
        }
    }
}

/// The call that closes a resource of the type, at the resource's name: as `close()` on a value of the type (JLS 14.20.3.1).
pub fn closing_by(
    alloc: Global,
    scope: &BodyScope,
    pos: Pos,
    vtype: Option<VType>,
) -> Result<Answer, NoMemory>
    ensures { IfOk result (λ r. r ≡ closing_by (surroundings_of scope.now) pos vtype) }
{
    match vtype {
        None => Ok(Answer::Silent(pos)),
        Some(found) => {
            if is_closeable(scope, found) {
                closing_of(alloc, scope, pos, found)
            } else {
                Ok(Answer::Silent(pos))
            }
        }
    }
}
