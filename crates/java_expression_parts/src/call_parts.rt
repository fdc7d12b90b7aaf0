//! The parts of calls and of instance creations: the target, written or implied, and the arguments.

ghost use Rattle.std.specs.Prelude.{◌≡◌, ◌∷◌, IfOk, Some, map};
ghost use Rattle.java_typed_trees.specs.ExpressionTrees.{expressions, tree_of};
ghost use Rattle.java_expression_parts.specs.CallParts.{argument_trees, has_implied_this, implies_this, is_implied, method_in, method_of_shape, parameters_of, trees_for, with_implied_this};
ghost use Rattle.java_expression_parts.specs.Surroundings.{surroundings_of};
ghost use Rattle.java_expression_parts.specs.TypedParts.{typing_of};

use crate::contexts::in_context_of;
use crate::surroundings::BodyScope;
use crate::typing::ExpressionTyping;
use java_member_rules::implied_this;
use java_typed_trees::{Answer, CallShape, ExpressionTree, Shape};
use program_model::{MethodId, ParamSig, Program};
use rlc_base::{NoMemory, Pos};
use std::alloc::Global;

fn method_of_shape(shape: Shape) -> Option<MethodId>
    ensures { result ≡ method_of_shape shape }
{
    match shape {
        Shape::Call(_, method) => Some(method),
        Shape::NewObject(_, constructor) => Some(constructor),
        _ => None,
    }
}

fn method_in(answer: Answer) -> Option<MethodId>
    ensures { result ≡ method_in answer }
{
    match answer {
        Answer::Is(shape, _) => method_of_shape(shape),
        Answer::Wrong(_, _) => None,
        Answer::Silent(_) => None,
    }
}

fn parameters_of(p: &Program, method: Option<MethodId>) -> &[ParamSig]
    ensures { map (λ x. x.vtype) result.now ≡ parameters_of p.now method }
{
    match method {
        None => &[],
        Some(found) => parameters_at(p, found),
    }
}

fn parameters_at(p: &Program, method: MethodId) -> &[ParamSig]
    ensures { map (λ x. x.vtype) result.now ≡ parameters_of p.now (Some method) }
{
    match p.method(method) {
        None => &[],
        Some(found) => &found.sig.params,
    }
}

/// The arguments of the method or constructor as parts, each in the context of its parameter (JLS 5.3).
pub fn trees_for(
    alloc: Global,
    p: &Program,
    method: Option<MethodId>,
    arguments: Vec<ExpressionTyping>,
) -> Result<Vec<ExpressionTree>, NoMemory>
    ensures { IfOk result (λ v. expressions (map tree_of v.items) ≡ trees_for p.now method (map typing_of arguments.items)) }
{
    let params = parameters_of(p, method);
    let mut trees = Vec::new(alloc);
    for argument in arguments {
        let tree = in_context_of(params, trees.len(), argument.tree);
        trees.push(tree)?;
    }
    Ok(trees)
}

/// The arguments as parts of what a rule has found.
pub fn argument_trees(
    alloc: Global,
    p: &Program,
    answer: Answer,
    arguments: Vec<ExpressionTyping>,
) -> Result<Vec<ExpressionTree>, NoMemory>
    ensures { IfOk result (λ v. expressions (map tree_of v.items) ≡ argument_trees p.now answer (map typing_of arguments.items)) }
{
    trees_for(alloc, p, method_in(answer), arguments)
}

fn has_implied_this(form: CallShape) -> bool
    ensures { result ≡ has_implied_this form }
{
    match form {
        CallShape::Static => false,
        CallShape::This => true,
        CallShape::Super => true,
        CallShape::Other => false,
    }
}

fn implies_this(shape: Shape) -> bool
    ensures { result ≡ implies_this shape }
{
    match shape {
        Shape::Field(_) => true,
        Shape::Call(form, _) => has_implied_this(form),
        _ => false,
    }
}

fn is_implied(answer: Answer) -> bool
    ensures { result ≡ is_implied answer }
{
    match answer {
        Answer::Is(shape, _) => implies_this(shape),
        Answer::Wrong(_, _) => false,
        Answer::Silent(_) => false,
    }
}

/// The parts of a member of `this` that is named without a target: the implied `this`, and these.
pub fn with_implied_this(
    alloc: Global,
    scope: &BodyScope,
    pos: Pos,
    answer: Answer,
    parts: Vec<ExpressionTree>,
) -> Result<Vec<ExpressionTree>, NoMemory>
    ensures { IfOk result (λ v. expressions (map tree_of v.items) ≡ with_implied_this (surroundings_of scope.now) pos answer (expressions (map tree_of parts.items))) }
{
    if is_implied(answer) {
        with_first(implied_this(alloc, scope.scope.class, pos), parts)
    } else {
        Ok(parts)
    }
}

/// The part, and these behind it.
pub fn with_first(
    first: ExpressionTree,
    mut parts: Vec<ExpressionTree>,
) -> Result<Vec<ExpressionTree>, NoMemory>
    ensures { IfOk result (λ v. v.items ≡ first ∷ parts.items) }
{
    parts.insert(0, first)?;
    Ok(parts)
}
