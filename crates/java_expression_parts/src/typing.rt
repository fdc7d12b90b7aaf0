//! What the typing of an expression gives: the answer of its rule, and its typed tree.

ghost use Rattle.std.specs.Prelude.{◌≡◌, ◌++◌, IfOk, OnOk, map};
ghost use Rattle.java_typed_trees.specs.Answers.{as_value, facts_in, void_cases};
ghost use Rattle.java_typed_trees.specs.ExpressionTrees.{expressions, tree_of};
ghost use Rattle.java_expression_parts.specs.Surroundings.{surroundings_of};
ghost use Rattle.java_expression_parts.specs.TypedParts.{facts_of, one, own_refusals, parts_of, shape_in, three, two, typing_by, typing_of};

use crate::surroundings::BodyScope;
use java_typed_trees::{
    Answer, ExpressionTree, Facts, Shape, TypedExpression, as_value, facts_in, settle,
};
use rlc_base::{NoMemory, Refusal};
use std::alloc::Global;

/// What the typing of an expression gives.
#[derive(Drop)]
pub struct ExpressionTyping {
    /// What its rule says of it.
    pub answer: Answer,
    /// Its typed tree.
    pub tree: ExpressionTree,
}

/// The facts where a value is needed (JLS 15.1).
pub fn operand(answer: Answer) -> Facts
    ensures { result ≡ as_value (facts_in answer) }
{
    as_value(facts_in(answer))
}

/// The shape that a rule has found.
pub fn shape_in(answer: Answer) -> Shape
    ensures { result ≡ shape_in answer }
{
    match answer {
        Answer::Is(shape, _) => shape,
        Answer::Wrong(_, _) => Shape::Erroneous,
        Answer::Silent(_) => Shape::Erroneous,
    }
}

/// The parts of a typed tree.
pub fn into_parts(tree: ExpressionTree) -> Vec<ExpressionTree>
    ensures { expressions (map tree_of result.items) ≡ parts_of (tree_of tree) }
{
    tree.parts
}

/// One part.
pub fn one(alloc: Global, a: ExpressionTree) -> Result<Vec<ExpressionTree>, NoMemory>
    ensures { IfOk result (λ v. expressions (map tree_of v.items) ≡ one (tree_of a)) }
{
    let mut parts = Vec::new(alloc);
    parts.push(a)?;
    Ok(parts)
}

/// Two parts, in the order of their evaluation.
pub fn two(
    alloc: Global,
    a: ExpressionTree,
    b: ExpressionTree,
) -> Result<Vec<ExpressionTree>, NoMemory>
    ensures { IfOk result (λ v. expressions (map tree_of v.items) ≡ two (tree_of a) (tree_of b)) }
{
    let mut parts = Vec::new(alloc);
    parts.push(a)?;
    parts.push(b)?;
    Ok(parts)
}

/// Three parts, in the order of their evaluation.
pub fn three(
    alloc: Global,
    a: ExpressionTree,
    b: ExpressionTree,
    c: ExpressionTree,
) -> Result<Vec<ExpressionTree>, NoMemory>
    ensures { IfOk result (λ v. expressions (map tree_of v.items) ≡ three (tree_of a) (tree_of b) (tree_of c)) }
{
    let mut parts = Vec::new(alloc);
    parts.push(a)?;
    parts.push(b)?;
    parts.push(c)?;
    Ok(parts)
}

/// The expression of which a rule has given this answer, over its parts. It counts the refusals of the expression itself.
pub fn settle_in(
    scope: &BodyScope,
    refusals: &mut Vec<Refusal>,
    answer: Answer,
    parts: Vec<ExpressionTree>,
) -> Result<ExpressionTyping, NoMemory>
    ensures typing { IfOk result (λ r. typing_of r ≡ typing_by answer (expressions (map tree_of parts.items))) }
    ensures cases { OnOk result (refusals.new.items ≡ refusals.old.items ++ own_refusals (surroundings_of scope.now) (typing_by answer (expressions (map tree_of parts.items)))) }
{
    let typed = settle(
        scope.scope.program,
        scope.scope.covered,
        refusals,
        answer,
        parts,
    )?;
    let tree = typed.tree;
    Ok(ExpressionTyping { answer, tree })
}

/// The expression where a value is needed: the call of a method without a result is refused there (JLS 15.1).
pub fn needed_value(
    typing: ExpressionTyping,
    refusals: &mut Vec<Refusal>,
) -> Result<ExpressionTyping, NoMemory>
    ensures typing { IfOk result (λ r. typing_of r ≡ typing_of typing) }
    ensures cases { OnOk result (refusals.new.items ≡ refusals.old.items ++ void_cases (facts_of (typing_of typing))) }
{
    let answer = typing.answer;
    let facts = facts_in(answer);
    let tree = typing.tree;
    let typed = java_typed_trees::needed_value(TypedExpression { facts, tree }, refusals)?;
    let tree = typed.tree;
    Ok(ExpressionTyping { answer, tree })
}
