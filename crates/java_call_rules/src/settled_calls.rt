//! The typings of method calls (JLS 15.12) and of instance creations (JLS 15.9), over those of their parts.

ghost use Rattle.std.specs.Prelude.{◌≡◌, ◌++◌, IfOk, OnOk, map};
ghost use Rattle.java_call_rules.specs.Calls.{call_typing, class_call_typing, new_typing, object_call_typing, super_call_typing, unqualified_call_typing};
ghost use Rattle.java_expression_parts.specs.Surroundings.{surroundings_of};
ghost use Rattle.java_expression_parts.specs.TypedParts.{own_refusals, typing_of};

use crate::calls::{call_by, class_call, new_by, object_call, super_by};
use java_expression_parts::{
    BodyScope, ExpressionTyping, argument_trees, operand, settle_in, with_first, with_implied_this,
};
use java_syntax::Name;
use java_typed_trees::Answer;
use program_model::ClassId;
use rlc_base::{NoMemory, Pos, Refusal, Text};
use std::alloc::Global;

// A member of `this` without a written target, or of the super class.
fn settle_call(
    alloc: Global,
    scope: &BodyScope,
    refusals: &mut Vec<Refusal>,
    pos: Pos,
    answer: Answer,
    arguments: Vec<ExpressionTyping>,
) -> Result<ExpressionTyping, NoMemory>
    ensures typing { IfOk result (λ r. typing_of r ≡ call_typing (surroundings_of scope.now) pos answer (map typing_of arguments.items)) }
    ensures cases { OnOk result (refusals.new.items ≡ refusals.old.items ++ own_refusals (surroundings_of scope.now) (call_typing (surroundings_of scope.now) pos answer (map typing_of arguments.items))) }
{
    let trees = argument_trees(alloc, scope.scope.program, answer, arguments)?;
    let parts = with_implied_this(alloc, scope, pos, answer, trees)?;
    settle_in(scope, refusals, answer, parts)
}

/// `m(..)` (JLS 15.12), over the typings of its arguments.
pub fn unqualified_call(
    alloc: Global,
    scope: &BodyScope,
    refusals: &mut Vec<Refusal>,
    pos: Pos,
    name: &Text,
    arguments: Vec<ExpressionTyping>,
) -> Result<ExpressionTyping, NoMemory>
    ensures typing { IfOk result (λ r. typing_of r ≡ unqualified_call_typing (surroundings_of scope.now) pos name.now (map typing_of arguments.items)) }
    ensures cases { OnOk result (refusals.new.items ≡ refusals.old.items ++ own_refusals (surroundings_of scope.now) (unqualified_call_typing (surroundings_of scope.now) pos name.now (map typing_of arguments.items))) }
{
    let answer = call_by(alloc, scope, pos, name, &arguments)?;
    settle_call(alloc, scope, refusals, pos, answer, arguments)
}

/// `super.m(..)` (JLS 15.12), over the typings of its arguments.
pub fn super_call(
    alloc: Global,
    scope: &BodyScope,
    refusals: &mut Vec<Refusal>,
    pos: Pos,
    name: &Text,
    arguments: Vec<ExpressionTyping>,
) -> Result<ExpressionTyping, NoMemory>
    ensures typing { IfOk result (λ r. typing_of r ≡ super_call_typing (surroundings_of scope.now) pos name.now (map typing_of arguments.items)) }
    ensures cases { OnOk result (refusals.new.items ≡ refusals.old.items ++ own_refusals (surroundings_of scope.now) (super_call_typing (surroundings_of scope.now) pos name.now (map typing_of arguments.items))) }
{
    let answer = super_by(alloc, scope, pos, name, &arguments)?;
    settle_call(alloc, scope, refusals, pos, answer, arguments)
}

/// `C.m(..)` (JLS 15.12), over the typings of its arguments. The class is no part.
pub fn class_method_call(
    alloc: Global,
    scope: &BodyScope,
    refusals: &mut Vec<Refusal>,
    pos: Pos,
    name: &Text,
    class: ClassId,
    arguments: Vec<ExpressionTyping>,
) -> Result<ExpressionTyping, NoMemory>
    ensures typing { IfOk result (λ r. typing_of r ≡ class_call_typing (surroundings_of scope.now) pos name.now class (map typing_of arguments.items)) }
    ensures cases { OnOk result (refusals.new.items ≡ refusals.old.items ++ own_refusals (surroundings_of scope.now) (class_call_typing (surroundings_of scope.now) pos name.now class (map typing_of arguments.items))) }
{
    let answer = class_call(alloc, scope, pos, name, class, &arguments)?;
    let parts = argument_trees(alloc, scope.scope.program, answer, arguments)?;
    settle_in(scope, refusals, answer, parts)
}

/// `e.m(..)` (JLS 15.12), over the typings of e and of the arguments. `is_this` says whether e is `this`.
pub fn object_method_call(
    alloc: Global,
    scope: &BodyScope,
    refusals: &mut Vec<Refusal>,
    pos: Pos,
    name: &Text,
    is_this: bool,
    target: ExpressionTyping,
    arguments: Vec<ExpressionTyping>,
) -> Result<ExpressionTyping, NoMemory>
    ensures typing { IfOk result (λ r. typing_of r ≡ object_call_typing (surroundings_of scope.now) is_this pos name.now (typing_of target) (map typing_of arguments.items)) }
    ensures cases { OnOk result (refusals.new.items ≡ refusals.old.items ++ own_refusals (surroundings_of scope.now) (object_call_typing (surroundings_of scope.now) is_this pos name.now (typing_of target) (map typing_of arguments.items))) }
{
    let facts = operand(target.answer);
    let answer = object_call(alloc, scope, is_this, pos, name, facts, &arguments)?;
    let trees = argument_trees(alloc, scope.scope.program, answer, arguments)?;
    let parts = with_first(target.tree, trees)?;
    settle_in(scope, refusals, answer, parts)
}

/// `new C(..)` (JLS 15.9), over the typings of its arguments.
pub fn new_object(
    alloc: Global,
    scope: &BodyScope,
    refusals: &mut Vec<Refusal>,
    pos: Pos,
    class: &Name,
    arguments: Vec<ExpressionTyping>,
) -> Result<ExpressionTyping, NoMemory>
    ensures typing { IfOk result (λ r. typing_of r ≡ new_typing (surroundings_of scope.now) pos class.now (map typing_of arguments.items)) }
    ensures cases { OnOk result (refusals.new.items ≡ refusals.old.items ++ own_refusals (surroundings_of scope.now) (new_typing (surroundings_of scope.now) pos class.now (map typing_of arguments.items))) }
{
    let answer = new_by(alloc, scope, pos, class, &arguments)?;
    let parts = argument_trees(alloc, scope.scope.program, answer, arguments)?;
    settle_in(scope, refusals, answer, parts)
}
