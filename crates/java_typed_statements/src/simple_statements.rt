//! Statements that have no statement in them (JLS 14.4, 14.6, 14.8, 14.15 to 14.18). Each puts its typed tree at the end of
//! `trees`, and answers how it ends.

ghost use Rattle.std.specs.Prelude.{◌≡◌, ◌+◌, ◌++◌, ◌∷◌, [], None, IfOk, OnOk, map, option_map, length};
ghost use Rattle.std.specs.Option.{is_some};
ghost use Rattle.java_syntax.specs.ExpressionTrees.{expr_of};
ghost use Rattle.java_syntax.specs.StatementTrees.{local_of};
ghost use Rattle.java_syntax.specs.StatementTrees as syntax;
ghost use Rattle.java_typed_trees.specs.ExpressionTrees.{expressions, no_expression};
ghost use Rattle.java_typed_trees.specs.StatementTrees.{Statement, form_of, no_statement, statement_of};
ghost use Rattle.java_typed_trees.specs.StatementTrees as forms;
ghost use Rattle.java_statement_parts.specs.Cases.{cases};
ghost use Rattle.java_statement_rules.specs.Completions.{abrupt, breaking, continuing, normal};
ghost use Rattle.java_statement_rules.specs.StatementCases.{unless};
ghost use Rattle.java_statement_parts.specs.Declarations.{locals_declared};
ghost use Rattle.java_statement_parts.specs.Heads.{plain_tree, returned, returning_cases, throwing_cases};
ghost use Rattle.java_statement_scopes.specs.Scopes.{context_at, surroundings_at};
ghost use Rattle.java_typed_statements.specs.StatementCases.{statement_cases};
ghost use Rattle.java_typed_statements.specs.StatementTrees as trees_of;

use java_statement_parts::{declaration, push_expression, push_returned, push_thrown};
use java_statement_rules::{Completion, abrupt, breaking, continuing, count_unless, normal};
use java_statement_scopes::StatementScope;
use java_syntax::{Expr, Local as LocalDecl};
use java_typed_trees::{Local, StatementShape, StatementTree, statement_tree};
use rlc_base::{NoMemory, Pos, Refusal};
use std::alloc::Global;

// A statement without parts.
fn push_bare(
    alloc: Global,
    trees: &mut Vec<StatementTree>,
    shape: StatementShape,
    pos: Pos,
) -> Result<(), NoMemory>
    ensures { OnOk result (map statement_of trees.new.items ≡ map statement_of trees.old.items ++ Statement (form_of shape) pos no_expression no_statement ∷ []) }
{
    let values = Vec::new(alloc);
    let inner = Vec::new(alloc);
    trees.push(statement_tree(shape, pos, values, inner))?;
    Ok(())
}

/// An empty statement (JLS 14.6).
pub(crate) fn empty_statement(
    alloc: Global,
    trees: &mut Vec<StatementTree>,
    pos: Pos,
) -> Result<Completion, NoMemory>
    ensures completion { IfOk result (λ r. r ≡ normal) }
    ensures tree { OnOk result (map statement_of trees.new.items ≡ map statement_of trees.old.items ++ Statement forms.Empty pos no_expression no_statement ∷ []) }
{
    push_bare(alloc, trees, StatementShape::Empty, pos)?;
    Ok(normal())
}

/// A `break` (JLS 14.15), which stands in a loop.
pub(crate) fn break_statement(
    alloc: Global,
    in_loop: bool,
    refusals: &mut Vec<Refusal>,
    trees: &mut Vec<StatementTree>,
    pos: Pos,
) -> Result<Completion, NoMemory>
    ensures completion { IfOk result (λ r. r ≡ breaking) }
    ensures tree { OnOk result (map statement_of trees.new.items ≡ map statement_of trees.old.items ++ Statement forms.Break pos no_expression no_statement ∷ []) }
    ensures cases { OnOk result (refusals.new.items ≡ refusals.old.items ++ unless in_loop pos) }
{
    count_unless(in_loop, pos, refusals)?;
    push_bare(alloc, trees, StatementShape::Break, pos)?;
    Ok(breaking())
}

/// A `continue` (JLS 14.16), which stands in a loop.
pub(crate) fn continue_statement(
    alloc: Global,
    in_loop: bool,
    refusals: &mut Vec<Refusal>,
    trees: &mut Vec<StatementTree>,
    pos: Pos,
) -> Result<Completion, NoMemory>
    ensures completion { IfOk result (λ r. r ≡ continuing) }
    ensures tree { OnOk result (map statement_of trees.new.items ≡ map statement_of trees.old.items ++ Statement forms.Continue pos no_expression no_statement ∷ []) }
    ensures cases { OnOk result (refusals.new.items ≡ refusals.old.items ++ unless in_loop pos) }
{
    count_unless(in_loop, pos, refusals)?;
    push_bare(alloc, trees, StatementShape::Continue, pos)?;
    Ok(continuing())
}

/// A declaration of local variables (JLS 14.4), which it puts behind those in scope.
pub(crate) fn local_statement(
    alloc: Global,
    scope: &StatementScope,
    local: &LocalDecl,
    pos: Pos,
    locals: &mut Vec<Local>,
    next: &mut u32,
    refusals: &mut Vec<Refusal>,
    trees: &mut Vec<StatementTree>,
) -> Result<Completion, NoMemory>
    ensures completion { IfOk result (λ r. r ≡ normal) }
    ensures tree { OnOk result (map statement_of trees.new.items ≡ map statement_of trees.old.items ++ trees_of.statement_tree (context_at scope.now locals.old.items next.old) (syntax.LocalOf (local_of local.now) pos) ∷ []) }
    ensures cases { OnOk result (refusals.new.items ≡ refusals.old.items ++ statement_cases (context_at scope.now locals.old.items next.old) (syntax.LocalOf (local_of local.now) pos)) }
    ensures locals { OnOk result (locals.new.items ≡ locals.old.items ++ locals_declared (context_at scope.now locals.old.items next.old) (local_of local.now) pos) }
    ensures next { OnOk result (next.new ≡ next.old + length (local_of local.now).variables) }
{
    let mut values = Vec::new(alloc);
    let inner = Vec::new(alloc);
    let names = declaration(
        alloc,
        scope,
        locals,
        next,
        refusals,
        &mut values,
        local,
        pos,
    )?;
    let shape = StatementShape::LocalDeclaration(names);
    trees.push(statement_tree(shape, pos, values, inner))?;
    Ok(normal())
}

/// An expression that is a statement (JLS 14.8).
pub(crate) fn expression_statement(
    alloc: Global,
    scope: &StatementScope,
    e: &Expr,
    pos: Pos,
    locals: &[Local],
    refusals: &mut Vec<Refusal>,
    trees: &mut Vec<StatementTree>,
) -> Result<Completion, NoMemory>
    ensures completion { IfOk result (λ r. r ≡ normal) }
    ensures tree { OnOk result (map statement_of trees.new.items ≡ map statement_of trees.old.items ++ Statement forms.Expression pos (expressions (plain_tree (surroundings_at scope.now locals.now) (expr_of e.now))) no_statement ∷ []) }
    ensures cases { OnOk result (refusals.new.items ≡ refusals.old.items ++ cases (surroundings_at scope.now locals.now) None (expr_of e.now)) }
{
    let mut values = Vec::new(alloc);
    let inner = Vec::new(alloc);
    push_expression(alloc, scope, locals, refusals, &mut values, e)?;
    trees.push(statement_tree(StatementShape::Expression, pos, values, inner))?;
    Ok(normal())
}

/// A `return` (JLS 14.17).
pub(crate) fn return_statement(
    alloc: Global,
    scope: &StatementScope,
    e: &Option<Expr>,
    pos: Pos,
    locals: &[Local],
    refusals: &mut Vec<Refusal>,
    trees: &mut Vec<StatementTree>,
) -> Result<Completion, NoMemory>
    ensures completion { IfOk result (λ r. r ≡ abrupt) }
    ensures tree { OnOk result (map statement_of trees.new.items ≡ map statement_of trees.old.items ++ Statement (forms.Return (is_some (option_map expr_of e.now))) pos (expressions (returned (surroundings_at scope.now locals.now) scope.now.given (option_map expr_of e.now))) no_statement ∷ []) }
    ensures cases { OnOk result (refusals.new.items ≡ refusals.old.items ++ returning_cases (surroundings_at scope.now locals.now) scope.now.given (option_map expr_of e.now) pos) }
{
    let mut values = Vec::new(alloc);
    let inner = Vec::new(alloc);
    push_returned(alloc, scope, locals, refusals, &mut values, pos, e)?;
    let shape = StatementShape::Return(e.is_some());
    trees.push(statement_tree(shape, pos, values, inner))?;
    Ok(abrupt())
}

/// A `throw` (JLS 14.18).
pub(crate) fn throw_statement(
    alloc: Global,
    scope: &StatementScope,
    e: &Expr,
    pos: Pos,
    locals: &[Local],
    refusals: &mut Vec<Refusal>,
    trees: &mut Vec<StatementTree>,
) -> Result<Completion, NoMemory>
    ensures completion { IfOk result (λ r. r ≡ abrupt) }
    ensures tree { OnOk result (map statement_of trees.new.items ≡ map statement_of trees.old.items ++ Statement forms.Throw pos (expressions (plain_tree (surroundings_at scope.now locals.now) (expr_of e.now))) no_statement ∷ []) }
    ensures cases { OnOk result (refusals.new.items ≡ refusals.old.items ++ throwing_cases (surroundings_at scope.now locals.now) (expr_of e.now) pos) }
{
    let mut values = Vec::new(alloc);
    let inner = Vec::new(alloc);
    push_thrown(alloc, scope, locals, refusals, &mut values, pos, e)?;
    trees.push(statement_tree(StatementShape::Throw, pos, values, inner))?;
    Ok(abrupt())
}
