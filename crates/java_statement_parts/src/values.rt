//! The expressions of statements.

ghost use Rattle.std.specs.Prelude.{◌≡◌, ◌++◌, ◌∷◌, [], None, IfOk, OnOk, map, option_map};
ghost use Rattle.java_syntax.specs.ExpressionTrees.{expr_of};
ghost use Rattle.java_typed_trees.specs.ExpressionTrees.{tree_of};
ghost use Rattle.java_typed_expressions.specs.Cases.{cases, value_cases};
ghost use Rattle.java_typed_expressions.specs.Typings.{tree, value_facts};
ghost use Rattle.java_statement_parts.specs.Heads.{expression_trees, expressions_cases, goes_on, is_always, is_literal, is_literal_true, optional_cases, optional_tree, plain_tree, required_cases, returned, returning_cases, throwing_cases};
ghost use Rattle.java_statement_scopes.specs.Scopes.{surroundings_at};

use java_statement_rules::{
    count_condition, count_plain_return, count_return, count_throw, is_always_true, operand,
};
use java_statement_scopes::{StatementScope, body_scope};
use java_syntax::Expr;
use java_typed_expressions::{expression, value};
use java_typed_trees::{ExpressionTree, Facts, Local};
use program_model::VType;
use rlc_base::{NoMemory, Pos, Refusal};
use std::alloc::Global;

/// A value of a statement. It puts its tree at the end of `values`.
pub fn push_value(
    alloc: Global,
    scope: &StatementScope,
    locals: &[Local],
    refusals: &mut Vec<Refusal>,
    values: &mut Vec<ExpressionTree>,
    wanted: Option<VType>,
    e: &Expr,
) -> Result<Facts, NoMemory>
    ensures facts { IfOk result (λ r. r ≡ value_facts (surroundings_at scope.now locals.now) wanted (expr_of e.now)) }
    ensures trees { OnOk result (map tree_of values.new.items ≡ map tree_of values.old.items ++ tree (surroundings_at scope.now locals.now) wanted (expr_of e.now) ∷ []) }
    ensures cases { OnOk result (refusals.new.items ≡ refusals.old.items ++ value_cases (surroundings_at scope.now locals.now) wanted (expr_of e.now)) }
{
    let inner = body_scope(scope, locals);
    let typed = value(alloc, &inner, refusals, wanted, e)?;
    let facts = operand(typed.answer);
    values.push(typed.tree)?;
    Ok(facts)
}

/// An expression that is a statement (JLS 14.8). It puts its tree at the end of `values`.
pub fn push_expression(
    alloc: Global,
    scope: &StatementScope,
    locals: &[Local],
    refusals: &mut Vec<Refusal>,
    values: &mut Vec<ExpressionTree>,
    e: &Expr,
) -> Result<(), NoMemory>
    ensures trees { OnOk result (map tree_of values.new.items ≡ map tree_of values.old.items ++ plain_tree (surroundings_at scope.now locals.now) (expr_of e.now)) }
    ensures cases { OnOk result (refusals.new.items ≡ refusals.old.items ++ cases (surroundings_at scope.now locals.now) None (expr_of e.now)) }
{
    let inner = body_scope(scope, locals);
    let typed = expression(alloc, &inner, refusals, None, e)?;
    values.push(typed.tree)?;
    Ok(())
}

/// Expressions that are statements, in order.
pub fn push_expressions(
    alloc: Global,
    scope: &StatementScope,
    locals: &[Local],
    refusals: &mut Vec<Refusal>,
    values: &mut Vec<ExpressionTree>,
    es: &[Expr],
) -> Result<(), NoMemory>
    ensures trees { OnOk result (map tree_of values.new.items ≡ map tree_of values.old.items ++ expression_trees (surroundings_at scope.now locals.now) (map expr_of es.now)) }
    ensures cases { OnOk result (refusals.new.items ≡ refusals.old.items ++ expressions_cases (surroundings_at scope.now locals.now) (map expr_of es.now)) }
{
    for e in es {
        push_expression(alloc, scope, locals, refusals, values, e)?;
    }
    Ok(())
}

fn is_literal(e: &Expr) -> bool
    ensures { result ≡ is_literal (expr_of e.now) }
{
    match e {
        Expr::Literal { .. } => true,
        _ => false,
    }
}

// Whether an expression of these facts is the literal `true`.
fn is_literal_true(e: &Expr, facts: Facts) -> bool
    ensures { result ≡ is_literal_true (expr_of e.now) facts }
{
    is_literal(e) && is_always_true(facts)
}

/// A condition (JLS 14.9, 14.12, 14.13, 14.14.1), and whether it is the literal `true`. A condition of the same value that is made
/// of operators or names counts as one that may be false, as in a run. The place is that of its statement.
pub fn push_condition(
    alloc: Global,
    scope: &StatementScope,
    locals: &[Local],
    refusals: &mut Vec<Refusal>,
    values: &mut Vec<ExpressionTree>,
    pos: Pos,
    e: &Expr,
) -> Result<bool, NoMemory>
    ensures always { IfOk result (λ r. r ≡ is_always (surroundings_at scope.now locals.now) (expr_of e.now)) }
    ensures trees { OnOk result (map tree_of values.new.items ≡ map tree_of values.old.items ++ plain_tree (surroundings_at scope.now locals.now) (expr_of e.now)) }
    ensures cases { OnOk result (refusals.new.items ≡ refusals.old.items ++ required_cases (surroundings_at scope.now locals.now) (expr_of e.now) pos) }
{
    let facts = push_value(alloc, scope, locals, refusals, values, None, e)?;
    count_condition(pos, facts, refusals)?;
    Ok(is_literal_true(e, facts))
}

/// The condition of a `for`, where it has one, and whether it always goes on.
pub fn push_optional(
    alloc: Global,
    scope: &StatementScope,
    locals: &[Local],
    refusals: &mut Vec<Refusal>,
    values: &mut Vec<ExpressionTree>,
    pos: Pos,
    e: &Option<Expr>,
) -> Result<bool, NoMemory>
    ensures always { IfOk result (λ r. r ≡ goes_on (surroundings_at scope.now locals.now) (option_map expr_of e.now)) }
    ensures trees { OnOk result (map tree_of values.new.items ≡ map tree_of values.old.items ++ optional_tree (surroundings_at scope.now locals.now) (option_map expr_of e.now)) }
    ensures cases { OnOk result (refusals.new.items ≡ refusals.old.items ++ optional_cases (surroundings_at scope.now locals.now) (option_map expr_of e.now) pos) }
{
    match e {
        None => Ok(true),
        Some(found) => push_condition(alloc, scope, locals, refusals, values, pos, found),
    }
}

/// The value of a `return`, where it has one (JLS 14.17).
pub fn push_returned(
    alloc: Global,
    scope: &StatementScope,
    locals: &[Local],
    refusals: &mut Vec<Refusal>,
    values: &mut Vec<ExpressionTree>,
    pos: Pos,
    e: &Option<Expr>,
) -> Result<(), NoMemory>
    ensures trees { OnOk result (map tree_of values.new.items ≡ map tree_of values.old.items ++ returned (surroundings_at scope.now locals.now) scope.now.given (option_map expr_of e.now)) }
    ensures cases { OnOk result (refusals.new.items ≡ refusals.old.items ++ returning_cases (surroundings_at scope.now locals.now) scope.now.given (option_map expr_of e.now) pos) }
{
    match e {
        None => count_plain_return(pos, scope.given, refusals),
        Some(found) => {
            let wanted = scope.given;
            let facts = push_value(alloc, scope, locals, refusals, values, wanted, found)?;
            count_return(scope.program, pos, wanted, facts, refusals)
        }
    }
}

/// What a `throw` throws (JLS 14.18).
pub fn push_thrown(
    alloc: Global,
    scope: &StatementScope,
    locals: &[Local],
    refusals: &mut Vec<Refusal>,
    values: &mut Vec<ExpressionTree>,
    pos: Pos,
    e: &Expr,
) -> Result<(), NoMemory>
    ensures trees { OnOk result (map tree_of values.new.items ≡ map tree_of values.old.items ++ plain_tree (surroundings_at scope.now locals.now) (expr_of e.now)) }
    ensures cases { OnOk result (refusals.new.items ≡ refusals.old.items ++ throwing_cases (surroundings_at scope.now locals.now) (expr_of e.now) pos) }
{
    let facts = push_value(alloc, scope, locals, refusals, values, None, e)?;
    count_throw(scope.program, scope.covered, pos, facts, refusals)
}
