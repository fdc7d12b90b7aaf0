//! The arguments of calls and instance creations: which methods take them, and what the parameters make of them.
//! A conditional over references has the type of the parameter, where its second and third operand suit that (JLS 15.25.3).

ghost use Rattle.std.specs.Prelude.{◌≡◌, IfOk, map, zip};
ghost use Rattle.std.specs.List.{list_all};
ghost use Rattle.program_model.specs.Lookups.{method_at};
ghost use Rattle.java_conversions.specs.Conversions.{fits};
ghost use Rattle.java_typed_trees.specs.ExpressionTrees.{expressions, tree_of};
ghost use Rattle.java_expression_parts.specs.Arguments.{applicable_to, argument_types, each_value_fits, is_poly_conditional, takes_values, value_types, value_types_at};
ghost use Rattle.java_expression_parts.specs.TypedParts.{has_type, have_types, typing_of};

use crate::typing::ExpressionTyping;
use java_conversions::{fits, is_reference};
use java_typed_trees::{ExpressionTree, Shape, facts_in, type_of};
use program_model::{MethodId, ParamSig, Program, VType};
use rlc_base::NoMemory;
use std::alloc::Global;

fn has_type(typing: &ExpressionTyping) -> bool
    ensures { result ≡ has_type (typing_of typing.now) }
{
    type_of(facts_in(typing.answer)).is_some()
}

fn each_has_type(arguments: &[ExpressionTyping]) -> bool
    ensures { result ≡ list_all (λ a. has_type (typing_of a)) arguments.now }
{
    arguments.iter().all(|a| has_type(a))
}

/// Whether each argument has a type; a call without a result has none.
pub fn have_types(arguments: &[ExpressionTyping]) -> bool
    ensures { result ≡ have_types (map typing_of arguments.now) }
{
    each_has_type(arguments)
}

// Whether it is a conditional that takes the type of its context (JLS 15.25).
pub(crate) fn is_poly_conditional(shape: Shape, vtype: VType) -> bool
    ensures { result ≡ is_poly_conditional shape vtype }
{
    matches!(shape, Shape::Conditional) && is_reference(vtype)
}

// Whether each value that the expression may give fits the type.
#[cycle(values)]
#[tactic(auto, using(crate::proofs::Nodes::values_of_typeless, crate::proofs::Nodes::values_of_operands, crate::proofs::Nodes::value_of_itself))]
fn values_fit(p: &Program, tree: &ExpressionTree, to: VType) -> bool
    ensures { result ≡ list_all (λ t. fits p.now t to) (value_types (tree_of tree.now)) }
{
    match tree.vtype {
        None => true,
        Some(vtype) => {
            if is_poly_conditional(tree.shape, vtype) {
                part_fits(p, &tree.parts, 1, to) && part_fits(p, &tree.parts, 2, to)
            } else {
                fits(p, vtype, to)
            }
        }
    }
}

// Whether each value that the part with this number, from 0, may give fits the type, if there is such a part.
#[cycle(values)]
#[tactic(auto, using(crate::proofs::Nodes::values_at_part, crate::proofs::Nodes::values_past_parts))]
fn part_fits(p: &Program, parts: &[ExpressionTree], number: usize, to: VType) -> bool
    ensures { result ≡ list_all (λ t. fits p.now t to) (value_types_at number (expressions (map tree_of parts.now))) }
{
    if number < parts.len() {
        values_fit(p, &parts[number], to)
    } else {
        true
    }
}

fn fit_in_memory(p: &Program, arguments: &[ExpressionTyping], params: &[ParamSig]) -> bool
    ensures { result ≡ list_all (λ x. list_all (λ t. fits p.now t x.1.vtype) (value_types (tree_of x.0.tree))) (zip arguments.now params.now) }
{
    arguments
        .iter()
        .zip(params)
        .all(|x| values_fit(p, &x.0.tree, x.1.vtype))
}

fn each_value_fits(p: &Program, arguments: &[ExpressionTyping], params: &[ParamSig]) -> bool
    ensures { result ≡ each_value_fits p.now (argument_types (map typing_of arguments.now)) params.now }
{
    fit_in_memory(p, arguments, params)
}

#[tactic(auto, using(crate::proofs::ArgumentLaws::count_of_types))]
fn takes_values(p: &Program, arguments: &[ExpressionTyping], method: MethodId) -> bool
    ensures { result ≡ takes_values p.now (argument_types (map typing_of arguments.now)) (method_at p.now method) }
{
    match p.method(method) {
        None => false,
        Some(m) => {
            arguments.len() == m.sig.params.len() && each_value_fits(p, arguments, &m.sig.params)
        }
    }
}

/// Those of these methods or constructors that take the arguments (JLS 15.12.2.2).
pub fn applicable_to(
    alloc: Global,
    p: &Program,
    candidates: &[MethodId],
    arguments: &[ExpressionTyping],
) -> Result<Vec<MethodId>, NoMemory>
    ensures { IfOk result (λ v. v.items ≡ applicable_to p.now candidates.now (argument_types (map typing_of arguments.now))) }
{
    Ok(
        candidates
            .iter()
            .copied()
            .filter(|m| takes_values(p, arguments, *m))
            .collect(alloc)?,
    )
}
