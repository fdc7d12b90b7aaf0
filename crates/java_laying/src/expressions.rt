//! Lays typed expressions into the table of a body.

ghost use Rattle.std.specs.Prelude.{◌≡◌, ◌<◌, ◌+◌, ◌++◌, IfOk, OnOk, length, map};
ghost use Rattle.java_typed_trees.specs.ExpressionTrees.{expressions, tree_of};
ghost use Rattle.java_typed_trees.specs.WellFormed.{AreWellFormed, IsWellFormed};
ghost use Rattle.java_laying.specs.Cells.{cells_of};
ghost use Rattle.java_laying.specs.Flat.{flat, flats, root, roots, size, sizes};

use crate::kinds::kind_of;
use java_typed_trees::ExpressionTree;
use program_model::{ExprId, TExpr};
use rlc_base::NoMemory;
use std::alloc::Global;

/// Lays a typed expression behind the expressions of the table: its parts in their order, and then itself. It answers its
/// number. A table has fewer than 1,000,000,000 expressions.
#[cycle(laying)]
pub fn lay_expression(
    alloc: Global,
    table: &mut Vec<TExpr>,
    tree: &ExpressionTree,
) -> Result<ExprId, NoMemory>
    requires well_formed { IsWellFormed (tree_of tree.now) }
    requires room { length table.old.items + size (tree_of tree.now) < 1000000000 }
    ensures cells { OnOk result (cells_of table.new.items ≡ cells_of table.old.items ++ flat (length table.old.items) (tree_of tree.now)) }
    ensures count { OnOk result (length table.new.items ≡ length table.old.items + size (tree_of tree.now)) }
    ensures number { IfOk result (λ id. id ≡ root (length table.old.items) (tree_of tree.now)) }
{
    let ids = lay_expressions(alloc, table, &tree.parts)?;
    let id = ExprId(table.len() as u32);
    table.push(TExpr {
        kind: kind_of(tree.shape, ids),
        vtype: tree.vtype,
        pos: tree.pos,
    })?;
    Ok(id)
}

/// Lays typed expressions one behind another behind the expressions of the table. It answers their numbers.
#[cycle(laying)]
pub fn lay_expressions(
    alloc: Global,
    table: &mut Vec<TExpr>,
    trees: &[ExpressionTree],
) -> Result<Vec<ExprId>, NoMemory>
    requires well_formed { AreWellFormed (expressions (map tree_of trees.now)) }
    requires room { length table.old.items + sizes (expressions (map tree_of trees.now)) < 1000000000 }
    ensures cells { OnOk result (cells_of table.new.items ≡ cells_of table.old.items ++ flats (length table.old.items) (expressions (map tree_of trees.now))) }
    ensures count { OnOk result (length table.new.items ≡ length table.old.items + sizes (expressions (map tree_of trees.now))) }
    ensures numbers { IfOk result (λ ids. ids.items ≡ roots (length table.old.items) (expressions (map tree_of trees.now))) }
{
    let mut ids = Vec::new(alloc);
    for tree in trees {
        let id = lay_expression(alloc, table, tree)?;
        ids.push(id)?;
    }
    Ok(ids)
}
