//! Field accesses and method calls, over the typing of what stands before the dot (JLS 15.11, 15.12).

ghost use Rattle.std.specs.Prelude.{◌≡◌, ◌++◌, IfOk, OnOk, map};
ghost use Rattle.java_call_rules.specs.Surroundings.{surroundings_of};
ghost use Rattle.java_call_rules.specs.TypedParts.{own_refusals, typing_of};
ghost use Rattle.java_typed_expressions.specs.Targets.{call_on, field_on, typing_of_target};

use java_call_rules::{BodyScope, ExpressionTyping, class_method_call, object_method_call};
use java_variable_rules::{class_field, object_field};
use program_model::ClassId;
use rlc_base::{NoMemory, Pos, Refusal, Text};
use std::alloc::Global;

/// What stands before the dot of a field access or of a method call (JLS 6.5.2).
#[derive(Drop)]
pub(crate) enum Target {
    Class(ClassId),
    Value(ExpressionTyping),
}

/// `t.m(..)`, over the typings of t and of the arguments. `is_this` says whether t is `this`.
pub(crate) fn method_call(
    alloc: Global,
    scope: &BodyScope,
    refusals: &mut Vec<Refusal>,
    pos: Pos,
    name: &Text,
    is_this: bool,
    target: Target,
    arguments: Vec<ExpressionTyping>,
) -> Result<ExpressionTyping, NoMemory>
    ensures typing { IfOk result (λ r. typing_of r ≡ call_on (surroundings_of scope.now) is_this pos name.now (typing_of_target target) (map typing_of arguments.items)) }
    ensures cases { OnOk result (refusals.new.items ≡ refusals.old.items ++ own_refusals (surroundings_of scope.now) (call_on (surroundings_of scope.now) is_this pos name.now (typing_of_target target) (map typing_of arguments.items))) }
{
    match target {
        Target::Class(class) => {
            class_method_call(alloc, scope, refusals, pos, name, class, arguments)
        }
        Target::Value(t) => {
            object_method_call(alloc, scope, refusals, pos, name, is_this, t, arguments)
        }
    }
}

/// `t.f`, over the typing of t.
pub(crate) fn field_access(
    alloc: Global,
    scope: &BodyScope,
    refusals: &mut Vec<Refusal>,
    pos: Pos,
    name: &Text,
    target: Target,
) -> Result<ExpressionTyping, NoMemory>
    ensures typing { IfOk result (λ r. typing_of r ≡ field_on (surroundings_of scope.now) pos name.now (typing_of_target target)) }
    ensures cases { OnOk result (refusals.new.items ≡ refusals.old.items ++ own_refusals (surroundings_of scope.now) (field_on (surroundings_of scope.now) pos name.now (typing_of_target target))) }
{
    match target {
        Target::Class(class) => class_field(alloc, scope, refusals, pos, name, class),
        Target::Value(t) => object_field(alloc, scope, refusals, pos, name, t),
    }
}
