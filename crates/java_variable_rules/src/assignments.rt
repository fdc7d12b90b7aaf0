//! Assignments, also those that use an operator, and steps (JLS 15.14, 15.15, 15.26), over the typings of their parts.

ghost use Rattle.std.specs.Prelude.{◌≡◌, ◌++◌, IfOk, OnOk, map};
ghost use Rattle.java_syntax.specs.ExpressionTrees.{expr_of};
ghost use Rattle.java_typed_trees.specs.ExpressionTrees.{expressions, tree_of};
ghost use Rattle.java_variable_rules.specs.Assignments.{assignment_typing, compound_by, compound_typing, implied_one, postfix_by, postfix_step_typing, prefix_by, prefix_step_typing};
ghost use Rattle.java_expression_parts.specs.Surroundings.{surroundings_of};
ghost use Rattle.java_expression_parts.specs.TypedParts.{own_refusals, typing_of, with_last};

use crate::targets::{assigned_target, may_update};
use java_expression_parts::{
    BodyScope, ExpressionTyping, into_parts, operand, settle_in, shape_in, two,
};
use java_member_rules::assignment_by;
use java_operator_rules::{operator_assignment_by, postfix_step_by, prefix_step_by};
use java_syntax::Expr;
use java_typed_trees::{Answer, ExpressionTree, Facts, Shape, expression_tree, mismatch, type_of};
use program_model::{BinaryOperator, Literal, Primitive, Program, VType};
use rlc_base::{NoMemory, Pos, Refusal};
use std::alloc::Global;

fn compound_by(
    p: &Program,
    is_allowed: bool,
    operator: BinaryOperator,
    pos: Pos,
    x: Facts,
    e: Facts,
) -> Answer
    ensures { result ≡ compound_by p.now is_allowed operator pos x e }
{
    match type_of(x) {
        None => Answer::Silent(pos),
        Some(_) => match type_of(e) {
            None => Answer::Silent(pos),
            Some(_) => {
                if is_allowed {
                    operator_assignment_by(p, operator, pos, x, e)
                } else {
                    mismatch(pos)
                }
            }
        },
    }
}

fn prefix_by(is_allowed: bool, operator: BinaryOperator, pos: Pos, x: Facts) -> Answer
    ensures { result ≡ prefix_by is_allowed operator pos x }
{
    match type_of(x) {
        None => Answer::Silent(pos),
        Some(_) => {
            if is_allowed {
                prefix_step_by(operator, pos, x)
            } else {
                mismatch(pos)
            }
        }
    }
}

fn postfix_by(is_allowed: bool, operator: BinaryOperator, pos: Pos, x: Facts) -> Answer
    ensures { result ≡ postfix_by is_allowed operator pos x }
{
    match type_of(x) {
        None => Answer::Silent(pos),
        Some(_) => {
            if is_allowed {
                postfix_step_by(operator, pos, x)
            } else {
                mismatch(pos)
            }
        }
    }
}

fn with_last(
    mut parts: Vec<ExpressionTree>,
    last: ExpressionTree,
) -> Result<Vec<ExpressionTree>, NoMemory>
    ensures { IfOk result (λ v. expressions (map tree_of v.items) ≡ with_last (expressions (map tree_of parts.items)) (tree_of last)) }
{
    parts.push(last)?;
    Ok(parts)
}

// The implied 1 of a step, at its place.
fn implied_one(alloc: Global, pos: Pos) -> ExpressionTree
    ensures { tree_of result ≡ implied_one pos }
{
    let shape = Shape::Literal(Literal::Number(1));
    let vtype = Some(VType::Primitive(Primitive::Int));
    expression_tree(shape, vtype, pos, Vec::new(alloc))
}

/// `x = e` (JLS 15.26.1): its parts are those of the left-hand side, and the value.
pub fn assignment(
    scope: &BodyScope,
    refusals: &mut Vec<Refusal>,
    pos: Pos,
    left: &Expr,
    x: ExpressionTyping,
    e: ExpressionTyping,
) -> Result<ExpressionTyping, NoMemory>
    ensures typing { IfOk result (λ r. typing_of r ≡ assignment_typing (surroundings_of scope.now) pos (expr_of left.now) (typing_of x) (typing_of e)) }
    ensures cases { OnOk result (refusals.new.items ≡ refusals.old.items ++ own_refusals (surroundings_of scope.now) (assignment_typing (surroundings_of scope.now) pos (expr_of left.now) (typing_of x) (typing_of e))) }
{
    let target = assigned_target(scope, left, shape_in(x.answer));
    let variable = operand(x.answer);
    let answer = assignment_by(
        scope.scope.program,
        pos,
        target,
        variable,
        operand(e.answer),
    );
    let parts = with_last(into_parts(x.tree), e.tree)?;
    settle_in(scope, refusals, answer, parts)
}

/// `x o= e` (JLS 15.26.2).
pub fn compound_assignment(
    alloc: Global,
    scope: &BodyScope,
    refusals: &mut Vec<Refusal>,
    operator: BinaryOperator,
    pos: Pos,
    left: &Expr,
    x: ExpressionTyping,
    e: ExpressionTyping,
) -> Result<ExpressionTyping, NoMemory>
    ensures typing { IfOk result (λ r. typing_of r ≡ compound_typing (surroundings_of scope.now) operator pos (expr_of left.now) (typing_of x) (typing_of e)) }
    ensures cases { OnOk result (refusals.new.items ≡ refusals.old.items ++ own_refusals (surroundings_of scope.now) (compound_typing (surroundings_of scope.now) operator pos (expr_of left.now) (typing_of x) (typing_of e))) }
{
    let is_allowed = may_update(scope, left, shape_in(x.answer));
    let variable = operand(x.answer);
    let value = operand(e.answer);
    let answer = compound_by(
        scope.scope.program,
        is_allowed,
        operator,
        pos,
        variable,
        value,
    );
    let parts = two(alloc, x.tree, e.tree)?;
    settle_in(scope, refusals, answer, parts)
}

/// `++x` and `--x` (JLS 15.15.1, 15.15.2).
pub fn prefix_step(
    alloc: Global,
    scope: &BodyScope,
    refusals: &mut Vec<Refusal>,
    operator: BinaryOperator,
    pos: Pos,
    left: &Expr,
    x: ExpressionTyping,
) -> Result<ExpressionTyping, NoMemory>
    ensures typing { IfOk result (λ r. typing_of r ≡ prefix_step_typing (surroundings_of scope.now) operator pos (expr_of left.now) (typing_of x)) }
    ensures cases { OnOk result (refusals.new.items ≡ refusals.old.items ++ own_refusals (surroundings_of scope.now) (prefix_step_typing (surroundings_of scope.now) operator pos (expr_of left.now) (typing_of x))) }
{
    let is_allowed = may_update(scope, left, shape_in(x.answer));
    let answer = prefix_by(is_allowed, operator, pos, operand(x.answer));
    let parts = two(alloc, x.tree, implied_one(alloc, pos))?;
    settle_in(scope, refusals, answer, parts)
}

/// `x++` and `x--` (JLS 15.14.2, 15.14.3).
pub fn postfix_step(
    alloc: Global,
    scope: &BodyScope,
    refusals: &mut Vec<Refusal>,
    operator: BinaryOperator,
    pos: Pos,
    left: &Expr,
    x: ExpressionTyping,
) -> Result<ExpressionTyping, NoMemory>
    ensures typing { IfOk result (λ r. typing_of r ≡ postfix_step_typing (surroundings_of scope.now) operator pos (expr_of left.now) (typing_of x)) }
    ensures cases { OnOk result (refusals.new.items ≡ refusals.old.items ++ own_refusals (surroundings_of scope.now) (postfix_step_typing (surroundings_of scope.now) operator pos (expr_of left.now) (typing_of x))) }
{
    let is_allowed = may_update(scope, left, shape_in(x.answer));
    let answer = postfix_by(is_allowed, operator, pos, operand(x.answer));
    let parts = two(alloc, x.tree, implied_one(alloc, pos))?;
    settle_in(scope, refusals, answer, parts)
}
