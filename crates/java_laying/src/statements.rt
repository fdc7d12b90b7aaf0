//! Lays typed statements into the tables of a body.

ghost use Rattle.std.specs.Prelude.{◌≡◌, ◌<◌, ◌+◌, ◌++◌, IfOk, OnOk, length, map};
ghost use Rattle.java_typed_trees.specs.StatementTrees.{statement_of, statements};
ghost use Rattle.java_typed_trees.specs.WellFormedStatements.{AreWellFormedStatements, IsWellFormedStatement};
ghost use Rattle.java_laying.specs.Cells.{cells_of};
ghost use Rattle.java_laying.specs.StatementCells.{statement_cells};
ghost use Rattle.java_laying.specs.StatementFlat.{expression_count, expression_counts, flat_expressions, flat_statement, flat_statements, flats_expressions, statement_root, statement_roots, statement_size, statement_sizes};

use crate::expressions::lay_expressions;
use crate::statement_kinds::statement_kind;
use java_typed_trees::StatementTree;
use program_model::{StmtId, TExpr, TStmt};
use rlc_base::NoMemory;
use std::alloc::Global;

/// Lays a typed statement behind those of the tables: its expressions, then the statements in it, and then itself. It answers
/// its number. Each table has fewer than 1,000,000,000 nodes.
#[cycle(laying_statements)]
pub fn lay_statement(
    alloc: Global,
    own: &mut Vec<TStmt>,
    values: &mut Vec<TExpr>,
    tree: &StatementTree,
) -> Result<StmtId, NoMemory>
    requires well_formed { IsWellFormedStatement (statement_of tree.now) }
    requires room { length own.old.items + statement_size (statement_of tree.now) < 1000000000 }
    requires room_of_expressions { length values.old.items + expression_count (statement_of tree.now) < 1000000000 }
    ensures cells { OnOk result (statement_cells own.new.items ≡ statement_cells own.old.items ++ flat_statement (length own.old.items) (length values.old.items) (statement_of tree.now)) }
    ensures expressions { OnOk result (cells_of values.new.items ≡ cells_of values.old.items ++ flat_expressions (length values.old.items) (statement_of tree.now)) }
    ensures count { OnOk result (length own.new.items ≡ length own.old.items + statement_size (statement_of tree.now)) }
    ensures count_of_expressions { OnOk result (length values.new.items ≡ length values.old.items + expression_count (statement_of tree.now)) }
    ensures number { IfOk result (λ id. id ≡ statement_root (length own.old.items) (statement_of tree.now)) }
{
    let es = lay_expressions(alloc, values, &tree.expressions)?;
    let ss = lay_statements(alloc, own, values, &tree.statements)?;
    let id = StmtId(own.len() as u32);
    let kind = statement_kind(alloc, &tree.shape, es, ss)?;
    own.push(TStmt {
        kind,
        pos: tree.pos,
    })?;
    Ok(id)
}

/// Lays typed statements one behind another behind those of the tables. It answers their numbers.
#[cycle(laying_statements)]
pub fn lay_statements(
    alloc: Global,
    own: &mut Vec<TStmt>,
    values: &mut Vec<TExpr>,
    trees: &[StatementTree],
) -> Result<Vec<StmtId>, NoMemory>
    requires well_formed { AreWellFormedStatements (statements (map statement_of trees.now)) }
    requires room { length own.old.items + statement_sizes (statements (map statement_of trees.now)) < 1000000000 }
    requires room_of_expressions { length values.old.items + expression_counts (statements (map statement_of trees.now)) < 1000000000 }
    ensures cells { OnOk result (statement_cells own.new.items ≡ statement_cells own.old.items ++ flat_statements (length own.old.items) (length values.old.items) (statements (map statement_of trees.now))) }
    ensures expressions { OnOk result (cells_of values.new.items ≡ cells_of values.old.items ++ flats_expressions (length values.old.items) (statements (map statement_of trees.now))) }
    ensures count { OnOk result (length own.new.items ≡ length own.old.items + statement_sizes (statements (map statement_of trees.now))) }
    ensures count_of_expressions { OnOk result (length values.new.items ≡ length values.old.items + expression_counts (statements (map statement_of trees.now))) }
    ensures numbers { IfOk result (λ ids. ids.items ≡ statement_roots (length own.old.items) (statements (map statement_of trees.now))) }
{
    let mut ids = Vec::new(alloc);
    for tree in trees {
        let id = lay_statement(alloc, own, values, tree)?;
        ids.push(id)?;
    }
    Ok(ids)
}
