//! How many nodes typed expressions have.

ghost use Rattle.std.specs.Prelude.{◌≡◌, ◌+◌, IfOk, map};
ghost use Rattle.java_typed_trees.specs.ExpressionTrees.{expressions, tree_of};
ghost use Rattle.java_laying.specs.Flat.{size, sizes};

use java_typed_trees::ExpressionTree;
use rlc_base::NoMemory;

/// The sum, where it is a number of 32 bits.
pub(crate) fn sum(a: u32, b: u32) -> Result<u32, NoMemory>
    ensures { IfOk result (λ n. n ≡ a + b) }
{
    match a.checked_add(b) {
        None => Err(NoMemory),
        Some(both) => Ok(both),
    }
}

#[cycle(expression_sizes)]
fn expression_size(tree: &ExpressionTree) -> Result<u32, NoMemory>
    ensures { IfOk result (λ n. n ≡ size (tree_of tree.now)) }
{
    sum(expression_sizes(&tree.parts)?, 1)
}

/// How many nodes the expressions have.
#[cycle(expression_sizes)]
pub(crate) fn expression_sizes(trees: &[ExpressionTree]) -> Result<u32, NoMemory>
    ensures { IfOk result (λ n. n ≡ sizes (expressions (map tree_of trees.now))) }
{
    let mut count = 0;
    for tree in trees {
        count = sum(count, expression_size(tree)?)?;
    }
    Ok(count)
}
