//! The first part of `for` (JLS 14.14.1).

ghost use Rattle.std.specs.Prelude.{◌≡◌, ◌+◌, ◌++◌, IfOk, OnOk, map};
ghost use Rattle.java_syntax.specs.StatementTrees.{for_start_of};
ghost use Rattle.java_typed_trees.specs.ExpressionTrees.{tree_of};
ghost use Rattle.java_typed_trees.specs.StatementTrees.{initial_form};
ghost use Rattle.java_statement_parts.specs.Heads.{start_cases, start_form, start_trees, started_locals};
ghost use Rattle.java_statement_scopes.specs.Scopes.{context_at};
ghost use Rattle.java_statement_scopes.specs.VariableCounts.{start_count};

use crate::declarations::declaration;
use crate::values::push_expressions;
use java_statement_scopes::StatementScope;
use java_syntax::ForStart;
use java_typed_trees::{ExpressionTree, InitialShape, Local};
use rlc_base::{NoMemory, Pos, Refusal};
use std::alloc::Global;

/// The first part of a `for`. It puts the variables that it declares behind those in scope, and its trees at the end of
/// `values`. The place is that of the `for`.
pub fn for_start(
    alloc: Global,
    scope: &StatementScope,
    locals: &mut Vec<Local>,
    next: &mut u32,
    refusals: &mut Vec<Refusal>,
    values: &mut Vec<ExpressionTree>,
    start: &ForStart,
    pos: Pos,
) -> Result<InitialShape, NoMemory>
    ensures shape { IfOk result (λ r. initial_form r ≡ start_form next.old (for_start_of start.now)) }
    ensures locals { OnOk result (locals.new.items ≡ locals.old.items ++ started_locals (context_at scope.now locals.old.items next.old) (for_start_of start.now) pos) }
    ensures next { OnOk result (next.new ≡ next.old + start_count (for_start_of start.now)) }
    ensures trees { OnOk result (map tree_of values.new.items ≡ map tree_of values.old.items ++ start_trees (context_at scope.now locals.old.items next.old) (for_start_of start.now) pos) }
    ensures cases { OnOk result (refusals.new.items ≡ refusals.old.items ++ start_cases (context_at scope.now locals.old.items next.old) (for_start_of start.now) pos) }
{
    match start {
        ForStart::Declaration(local) => {
            let names = declaration(alloc, scope, locals, next, refusals, values, local, pos)?;
            Ok(InitialShape::Declaration(names))
        }
        ForStart::Expressions(es) => {
            push_expressions(alloc, scope, locals, refusals, values, es)?;
            Ok(InitialShape::Expressions(es.len()))
        }
    }
}
