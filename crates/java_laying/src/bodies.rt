//! Makes a body of its typed statements.

ghost use Rattle.std.specs.Prelude.{◌≡◌, ◌<◌, IfOk, map};
ghost use Rattle.program_model.specs.Trees.{IsForest};
ghost use Rattle.java_typed_trees.specs.StatementTrees.{statement_of, statements};
ghost use Rattle.java_typed_trees.specs.WellFormedStatements.{AreWellFormedStatements};
ghost use Rattle.java_laying.specs.Bodies.{HasStatements, IsLaid};
ghost use Rattle.java_laying.specs.StatementFlat.{expression_counts, statement_sizes};

use crate::statements::lay_statements;
use java_typed_trees::StatementTree;
use program_model::{Body, MethodId, Var};
use rlc_base::{NoMemory, Pos};
use std::alloc::Global;

/// The body of a method or constructor with these variables and statements, laid into its two tables: each node has one
/// parent, and stands before it. Each table has fewer than 1,000,000,000 nodes. `end` is the place of the closing brace.
pub fn lay_body(
    alloc: Global,
    method: MethodId,
    vars: Vec<Var>,
    trees: &[StatementTree],
    end: Pos,
) -> Result<Body, NoMemory>
    requires well_formed { AreWellFormedStatements (statements (map statement_of trees.now)) }
    requires room { statement_sizes (statements (map statement_of trees.now)) < 1000000000 }
    requires room_of_expressions { expression_counts (statements (map statement_of trees.now)) < 1000000000 }
    ensures laid { IfOk result (λ b. IsLaid b (statements (map statement_of trees.now))) }
    ensures trees { IfOk result (λ b. HasStatements b (statements (map statement_of trees.now))) }
    ensures forest { IfOk result (λ b. IsForest b) }
    ensures method { IfOk result (λ b. b.method ≡ method) }
    ensures variables { IfOk result (λ b. b.vars.items ≡ vars.items) }
    ensures end { IfOk result (λ b. b.end ≡ end) }
{
    let mut own = Vec::new(alloc);
    let mut values = Vec::new(alloc);
    let stmts = lay_statements(alloc, &mut own, &mut values, trees)?;
    Ok(Body {
        method,
        vars,
        stmts,
        end,
        statements: own,
        expressions: values,
    })
}
