//! Typed trees where the context wants a type (JLS 15.25.3).

ghost use Rattle.std.specs.Prelude.{◌≡◌, map, slice_get};
ghost use Rattle.java_typed_trees.specs.ExpressionTrees.{tree_of};
ghost use Rattle.java_expression_parts.specs.Arguments.{in_context, in_context_if, takes_context};

use crate::arguments::is_poly_conditional;
use java_typed_trees::{ExpressionTree, Shape};
use program_model::{ParamSig, VType};

fn takes_context(shape: Shape, vtype: Option<VType>) -> bool
    ensures { result ≡ takes_context shape vtype }
{
    match vtype {
        None => false,
        Some(found) => is_poly_conditional(shape, found),
    }
}

// The typed tree where the context wants this type: a conditional over references has it, and so have its operands.
fn in_context(wanted: VType, tree: &mut ExpressionTree)
    ensures { tree_of tree.new ≡ in_context wanted (tree_of tree.old) }
{
    if takes_context(tree.shape, tree.vtype) {
        tree.vtype = Some(wanted);
        for number in 1..tree.parts.len() {
            in_context(wanted, &mut tree.parts[number]);
        }
    }
}

/// The typed tree of the argument with this number, from 0, in the context of its parameter, if there is one.
pub(crate) fn in_context_of(
    params: &[ParamSig],
    number: usize,
    mut tree: ExpressionTree,
) -> ExpressionTree
    ensures { tree_of result ≡ in_context_if (slice_get (map (λ x. x.vtype) params.now) number) (tree_of tree) }
{
    match params.get(number) {
        None => {}
        Some(found) => in_context(found.vtype, &mut tree),
    }
    tree
}
