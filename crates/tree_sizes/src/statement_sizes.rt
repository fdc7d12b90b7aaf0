//! How many statements and how many expressions typed statements have.

ghost use Rattle.std.specs.Prelude.{◌≡◌, ◌+◌, IfOk, map};
ghost use Rattle.java_typed_trees.specs.StatementTrees.{statement_of, statements};
ghost use Rattle.java_laying.specs.StatementFlat.{expression_count, expression_counts, statement_size, statement_sizes};

use crate::expression_sizes::{expression_sizes, sum};
use java_typed_trees::StatementTree;
use rlc_base::NoMemory;

#[cycle(statement_sizes)]
fn statement_size(tree: &StatementTree) -> Result<u32, NoMemory>
    ensures { IfOk result (λ n. n ≡ statement_size (statement_of tree.now)) }
{
    sum(statement_sizes(&tree.statements)?, 1)
}

/// How many statements these are, with all in them.
#[cycle(statement_sizes)]
pub(crate) fn statement_sizes(trees: &[StatementTree]) -> Result<u32, NoMemory>
    ensures { IfOk result (λ n. n ≡ statement_sizes (statements (map statement_of trees.now))) }
{
    let mut count = 0;
    for tree in trees {
        count = sum(count, statement_size(tree)?)?;
    }
    Ok(count)
}

#[cycle(expression_counts)]
fn expression_count(tree: &StatementTree) -> Result<u32, NoMemory>
    ensures { IfOk result (λ n. n ≡ expression_count (statement_of tree.now)) }
{
    sum(
        expression_sizes(&tree.expressions)?,
        expression_counts(&tree.statements)?,
    )
}

/// How many nodes the expressions in these statements have.
#[cycle(expression_counts)]
pub(crate) fn expression_counts(trees: &[StatementTree]) -> Result<u32, NoMemory>
    ensures { IfOk result (λ n. n ≡ expression_counts (statements (map statement_of trees.now))) }
{
    let mut count = 0;
    for tree in trees {
        count = sum(count, expression_count(tree)?)?;
    }
    Ok(count)
}
