//! The typing of each statement (JLS 14).

ghost use Rattle.std.specs.Prelude.{◌≡◌, ◌+◌, ◌++◌, ◌∷◌, [], true, IfOk, OnOk, map, option_map, length};
ghost use Rattle.java_syntax.specs.ExpressionTrees.{expr_of};
ghost use Rattle.java_syntax.specs.StatementTrees.{block_of, catch_of, catches, for_start_of, maybe_block, resource_of, statements as statements_of, stmt_of};
ghost use Rattle.java_syntax.specs.StatementTrees as syntax;
ghost use Rattle.java_typed_trees.specs.ExpressionTrees.{expressions, tree_of};
ghost use Rattle.java_typed_trees.specs.StatementTrees.{Statement, catch_form, statement_of};
ghost use Rattle.java_typed_trees.specs.StatementTrees as forms;
ghost use Rattle.java_statement_rules.specs.Completions.{one_of};
ghost use Rattle.java_statement_rules.specs.Contexts.{in_a_loop};
ghost use Rattle.java_statement_parts.specs.Resources.{opening_trees, resource_shapes, resources_cases};
ghost use Rattle.java_statement_parts.specs.Heads.{plain_tree, required_cases};
ghost use Rattle.java_statement_scopes.specs.Scopes.{context_at, surroundings_at};
ghost use Rattle.java_typed_statements.specs.StatementCases.{block_cases, catches_cases, finally_cases, statement_cases, statements_cases};
ghost use Rattle.java_typed_statements.specs.StatementCompletions.{block_completion, catches_completion, completion, finally_completion, statements_completion};
ghost use Rattle.java_typed_statements.specs.StatementContexts.{behind_resources, new_locals};
ghost use Rattle.java_typed_statements.specs.StatementTrees.{block_tree, catch_forms, catch_trees, finally_tree, statement_trees};
ghost use Rattle.java_typed_statements.specs.StatementTrees as trees_of;
ghost use Rattle.java_statement_scopes.specs.VariableCounts.{block_count, catches_count, finally_count, statements_count, variable_count};

use crate::simple_statements::{
    break_statement, continue_statement, empty_statement, expression_statement, local_statement,
    return_statement, throw_statement,
};
use java_statement_parts::{
    for_start, push_condition, push_expressions, push_optional, try_resources,
};
use java_statement_rules::{
    Completion, abrupt, and_then, do_completion, loop_completion, normal, one_of,
};
use java_statement_scopes::{
    StatementScope, clause_head, covered_before, covered_within, number_of_last,
};
use java_syntax::{Block, Catch, Expr, ForStart, Resource, Stmt};
use java_typed_trees::{
    CatchShape, ExpressionTree, ForShape, Local, ResourceShape, StatementShape, StatementTree,
    TryShape, statement_tree,
};
use rlc_base::{NoMemory, Pos, Refusal};
use std::alloc::Global;

/// A statement. It puts the variables that it declares for what is behind it at the end of those in scope, and its typed tree
/// at the end of `trees`, and answers how it ends. `next` is the number of the variable that is declared next.
#[cycle(typing)]
pub fn statement(
    alloc: Global,
    scope: &StatementScope,
    t: &Stmt,
    locals: &mut Vec<Local>,
    next: &mut u32,
    refusals: &mut Vec<Refusal>,
    trees: &mut Vec<StatementTree>,
) -> Result<Completion, NoMemory>
    ensures completion { IfOk result (λ r. r ≡ completion (context_at scope.now locals.old.items next.old) (stmt_of t.now)) }
    ensures tree { OnOk result (map statement_of trees.new.items ≡ map statement_of trees.old.items ++ trees_of.statement_tree (context_at scope.now locals.old.items next.old) (stmt_of t.now) ∷ []) }
    ensures cases { OnOk result (refusals.new.items ≡ refusals.old.items ++ statement_cases (context_at scope.now locals.old.items next.old) (stmt_of t.now)) }
    ensures locals { OnOk result (locals.new.items ≡ locals.old.items ++ new_locals (context_at scope.now locals.old.items next.old) (stmt_of t.now)) }
    ensures next { OnOk result (next.new ≡ next.old + variable_count (stmt_of t.now)) }
{
    match t {
        Stmt::Block(b) => block(alloc, scope, b, locals, next, refusals, trees),
        Stmt::Empty { pos } => empty_statement(alloc, trees, *pos),
        Stmt::Local { local, pos } => {
            local_statement(alloc, scope, local, *pos, locals, next, refusals, trees)
        }
        Stmt::Expression { expression, pos } => {
            expression_statement(alloc, scope, expression, *pos, locals, refusals, trees)
        }
        Stmt::If {
            condition,
            then,
            otherwise,
            pos,
        } => match otherwise {
            None => if_then(
                alloc, scope, then, locals, next, refusals, trees, condition, *pos,
            ),
            Some(other) => {
                let mut tests = Vec::new(alloc);
                let mut branches = Vec::new(alloc);
                let when_true = if_branch(
                    alloc,
                    scope,
                    then,
                    locals,
                    next,
                    refusals,
                    &mut branches,
                    condition,
                    &mut tests,
                    *pos,
                )?;
                let when_false = alone(alloc, scope, other, locals, next, refusals, &mut branches)?;
                push_if_else(trees, tests, branches, when_true, when_false, *pos)
            }
        },
        Stmt::While {
            condition,
            body,
            pos,
        } => while_statement(
            alloc, scope, body, locals, next, refusals, trees, condition, *pos,
        ),
        Stmt::Do {
            body,
            condition,
            pos,
        } => do_statement(
            alloc, scope, body, locals, next, refusals, trees, condition, *pos,
        ),
        Stmt::For {
            start,
            condition,
            updates,
            body,
            pos,
        } => for_statement(
            alloc, scope, body, locals, next, refusals, trees, start, condition, updates, *pos,
        ),
        Stmt::Try {
            resources,
            block: b,
            catches,
            finally,
            pos,
        } => {
            let mut behind = number_of_last(*next, resources, b, catches)?;
            let mut end = Vec::new(alloc);
            let closed = finally_block(
                alloc,
                scope,
                finally,
                locals,
                &mut behind,
                refusals,
                &mut end,
            )?;
            let before = covered_before(alloc, scope.program, closed.completes, scope.covered)?;
            let within = covered_within(alloc, scope, locals, catches, &before)?;
            let outer = StatementScope {
                covered: &before,
                ..*scope
            };
            let inner = StatementScope {
                covered: &within,
                ..*scope
            };
            let mut shapes = Vec::new(alloc);
            let mut values = Vec::new(alloc);
            let mut parts = Vec::new(alloc);
            let first = guarded_block(
                alloc,
                &inner,
                b,
                locals,
                next,
                refusals,
                &mut parts,
                resources,
                &mut shapes,
                &mut values,
                *pos,
            )?;
            let mut caught = Vec::new(alloc);
            let second = clauses(
                alloc,
                &outer,
                catches,
                locals,
                next,
                refusals,
                &mut parts,
                &mut caught,
                *pos,
            )?;
            parts.append(&mut end)?;
            *next = behind;
            let shape = StatementShape::Try(TryShape {
                resources: shapes,
                catches: caught,
                has_finally: finally.is_some(),
            });
            trees.push(statement_tree(shape, *pos, values, parts))?;
            Ok(and_then(closed, one_of(first, second)))
        }
        Stmt::Return { value, pos } => {
            return_statement(alloc, scope, value, *pos, locals, refusals, trees)
        }
        Stmt::Throw { value, pos } => {
            throw_statement(alloc, scope, value, *pos, locals, refusals, trees)
        }
        Stmt::Break { pos } => break_statement(alloc, scope.in_loop, refusals, trees, *pos),
        Stmt::Continue { pos } => continue_statement(alloc, scope.in_loop, refusals, trees, *pos),
    }
}

// An `if` without `else` (JLS 14.9.1).
#[cycle(typing)]
fn if_then(
    alloc: Global,
    scope: &StatementScope,
    then: &Stmt,
    locals: &mut Vec<Local>,
    next: &mut u32,
    refusals: &mut Vec<Refusal>,
    trees: &mut Vec<StatementTree>,
    e: &Expr,
    pos: Pos,
) -> Result<Completion, NoMemory>
    ensures completion { IfOk result (λ r. r ≡ completion (context_at scope.now locals.old.items next.old) (syntax.If (expr_of e.now) (stmt_of then.now) syntax.no_else pos)) }
    ensures tree { OnOk result (map statement_of trees.new.items ≡ map statement_of trees.old.items ++ trees_of.statement_tree (context_at scope.now locals.old.items next.old) (syntax.If (expr_of e.now) (stmt_of then.now) syntax.no_else pos) ∷ []) }
    ensures cases { OnOk result (refusals.new.items ≡ refusals.old.items ++ statement_cases (context_at scope.now locals.old.items next.old) (syntax.If (expr_of e.now) (stmt_of then.now) syntax.no_else pos)) }
    ensures locals { OnOk result (locals.new.items ≡ locals.old.items) }
    ensures next { OnOk result (next.new ≡ next.old + variable_count (syntax.If (expr_of e.now) (stmt_of then.now) syntax.no_else pos)) }
{
    let mut values = Vec::new(alloc);
    let mut inner = Vec::new(alloc);
    push_condition(alloc, scope, locals, refusals, &mut values, pos, e)?;
    let first = alone(alloc, scope, then, locals, next, refusals, &mut inner)?;
    trees.push(statement_tree(StatementShape::If(false), pos, values, inner))?;
    Ok(one_of(first, normal()))
}

// The condition of an `if`, and what runs where it is true. It puts the tree of the condition at the end of `values`. The place
// is that of the `if`.
#[cycle(typing)]
fn if_branch(
    alloc: Global,
    scope: &StatementScope,
    then: &Stmt,
    locals: &mut Vec<Local>,
    next: &mut u32,
    refusals: &mut Vec<Refusal>,
    trees: &mut Vec<StatementTree>,
    e: &Expr,
    values: &mut Vec<ExpressionTree>,
    pos: Pos,
) -> Result<Completion, NoMemory>
    ensures completion { IfOk result (λ r. r ≡ completion (context_at scope.now locals.old.items next.old) (stmt_of then.now)) }
    ensures condition { OnOk result (map tree_of values.new.items ≡ map tree_of values.old.items ++ plain_tree (surroundings_at scope.now locals.old.items) (expr_of e.now)) }
    ensures tree { OnOk result (map statement_of trees.new.items ≡ map statement_of trees.old.items ++ trees_of.statement_tree (context_at scope.now locals.old.items next.old) (stmt_of then.now) ∷ []) }
    ensures cases { OnOk result (refusals.new.items ≡ refusals.old.items ++ required_cases (surroundings_at scope.now locals.old.items) (expr_of e.now) pos ++ statement_cases (context_at scope.now locals.old.items next.old) (stmt_of then.now)) }
    ensures locals { OnOk result (locals.new.items ≡ locals.old.items) }
    ensures next { OnOk result (next.new ≡ next.old + variable_count (stmt_of then.now)) }
{
    push_condition(alloc, scope, locals, refusals, values, pos, e)?;
    alone(alloc, scope, then, locals, next, refusals, trees)
}

// Puts an `if` with `else` (JLS 14.9.2) over its parts at the end of `trees`, and answers how it ends.
fn push_if_else(
    trees: &mut Vec<StatementTree>,
    tests: Vec<ExpressionTree>,
    branches: Vec<StatementTree>,
    when_true: Completion,
    when_false: Completion,
    pos: Pos,
) -> Result<Completion, NoMemory>
    ensures completion { IfOk result (λ r. r ≡ one_of when_true when_false) }
    ensures tree { OnOk result (map statement_of trees.new.items ≡ map statement_of trees.old.items ++ Statement (forms.If true) pos (expressions (map tree_of tests.items)) (forms.statements (map statement_of branches.items)) ∷ []) }
{
    trees.push(statement_tree(StatementShape::If(true), pos, tests, branches))?;
    Ok(one_of(when_true, when_false))
}

// A `while` (JLS 14.12).
#[cycle(typing)]
fn while_statement(
    alloc: Global,
    scope: &StatementScope,
    body: &Stmt,
    locals: &mut Vec<Local>,
    next: &mut u32,
    refusals: &mut Vec<Refusal>,
    trees: &mut Vec<StatementTree>,
    e: &Expr,
    pos: Pos,
) -> Result<Completion, NoMemory>
    ensures completion { IfOk result (λ r. r ≡ completion (context_at scope.now locals.old.items next.old) (syntax.While (expr_of e.now) (stmt_of body.now) pos)) }
    ensures tree { OnOk result (map statement_of trees.new.items ≡ map statement_of trees.old.items ++ trees_of.statement_tree (context_at scope.now locals.old.items next.old) (syntax.While (expr_of e.now) (stmt_of body.now) pos) ∷ []) }
    ensures cases { OnOk result (refusals.new.items ≡ refusals.old.items ++ statement_cases (context_at scope.now locals.old.items next.old) (syntax.While (expr_of e.now) (stmt_of body.now) pos)) }
    ensures locals { OnOk result (locals.new.items ≡ locals.old.items) }
    ensures next { OnOk result (next.new ≡ next.old + variable_count (syntax.While (expr_of e.now) (stmt_of body.now) pos)) }
{
    let mut values = Vec::new(alloc);
    let mut inner = Vec::new(alloc);
    let always = push_condition(alloc, scope, locals, refusals, &mut values, pos, e)?;
    let done = loop_body(alloc, scope, body, locals, next, refusals, &mut inner)?;
    trees.push(statement_tree(StatementShape::While, pos, values, inner))?;
    Ok(loop_completion(always, done))
}

// A `do` (JLS 14.13).
#[cycle(typing)]
fn do_statement(
    alloc: Global,
    scope: &StatementScope,
    body: &Stmt,
    locals: &mut Vec<Local>,
    next: &mut u32,
    refusals: &mut Vec<Refusal>,
    trees: &mut Vec<StatementTree>,
    e: &Expr,
    pos: Pos,
) -> Result<Completion, NoMemory>
    ensures completion { IfOk result (λ r. r ≡ completion (context_at scope.now locals.old.items next.old) (syntax.DoWhile (stmt_of body.now) (expr_of e.now) pos)) }
    ensures tree { OnOk result (map statement_of trees.new.items ≡ map statement_of trees.old.items ++ trees_of.statement_tree (context_at scope.now locals.old.items next.old) (syntax.DoWhile (stmt_of body.now) (expr_of e.now) pos) ∷ []) }
    ensures cases { OnOk result (refusals.new.items ≡ refusals.old.items ++ statement_cases (context_at scope.now locals.old.items next.old) (syntax.DoWhile (stmt_of body.now) (expr_of e.now) pos)) }
    ensures locals { OnOk result (locals.new.items ≡ locals.old.items) }
    ensures next { OnOk result (next.new ≡ next.old + variable_count (syntax.DoWhile (stmt_of body.now) (expr_of e.now) pos)) }
{
    let mut values = Vec::new(alloc);
    let mut inner = Vec::new(alloc);
    let always = push_condition(alloc, scope, locals, refusals, &mut values, pos, e)?;
    let done = loop_body(alloc, scope, body, locals, next, refusals, &mut inner)?;
    trees.push(statement_tree(StatementShape::Do, pos, values, inner))?;
    Ok(do_completion(always, done))
}

// A `for` (JLS 14.14.1).
#[cycle(typing)]
fn for_statement(
    alloc: Global,
    scope: &StatementScope,
    body: &Stmt,
    locals: &mut Vec<Local>,
    next: &mut u32,
    refusals: &mut Vec<Refusal>,
    trees: &mut Vec<StatementTree>,
    start: &ForStart,
    e: &Option<Expr>,
    updates: &[Expr],
    pos: Pos,
) -> Result<Completion, NoMemory>
    ensures completion { IfOk result (λ r. r ≡ completion (context_at scope.now locals.old.items next.old) (syntax.For (for_start_of start.now) (option_map expr_of e.now) (map expr_of updates.now) (stmt_of body.now) pos)) }
    ensures tree { OnOk result (map statement_of trees.new.items ≡ map statement_of trees.old.items ++ trees_of.statement_tree (context_at scope.now locals.old.items next.old) (syntax.For (for_start_of start.now) (option_map expr_of e.now) (map expr_of updates.now) (stmt_of body.now) pos) ∷ []) }
    ensures cases { OnOk result (refusals.new.items ≡ refusals.old.items ++ statement_cases (context_at scope.now locals.old.items next.old) (syntax.For (for_start_of start.now) (option_map expr_of e.now) (map expr_of updates.now) (stmt_of body.now) pos)) }
    ensures locals { OnOk result (locals.new.items ≡ locals.old.items) }
    ensures next { OnOk result (next.new ≡ next.old + variable_count (syntax.For (for_start_of start.now) (option_map expr_of e.now) (map expr_of updates.now) (stmt_of body.now) pos)) }
{
    let count = locals.len();
    let mut values = Vec::new(alloc);
    let mut inner = Vec::new(alloc);
    let initial = for_start(
        alloc,
        scope,
        locals,
        next,
        refusals,
        &mut values,
        start,
        pos,
    )?;
    let always = push_optional(alloc, scope, locals, refusals, &mut values, pos, e)?;
    push_expressions(alloc, scope, locals, refusals, &mut values, updates)?;
    let done = loop_body(alloc, scope, body, locals, next, refusals, &mut inner)?;
    locals.truncate(count);
    let has_condition = e.is_some();
    let shape = StatementShape::For(ForShape {
        initial,
        has_condition,
    });
    trees.push(statement_tree(shape, pos, values, inner))?;
    Ok(loop_completion(always, done))
}

// A statement that stands by itself: nothing that it declares is in scope behind it (JLS 6.3).
#[cycle(typing)]
fn alone(
    alloc: Global,
    scope: &StatementScope,
    t: &Stmt,
    locals: &mut Vec<Local>,
    next: &mut u32,
    refusals: &mut Vec<Refusal>,
    trees: &mut Vec<StatementTree>,
) -> Result<Completion, NoMemory>
    ensures completion { IfOk result (λ r. r ≡ completion (context_at scope.now locals.old.items next.old) (stmt_of t.now)) }
    ensures tree { OnOk result (map statement_of trees.new.items ≡ map statement_of trees.old.items ++ trees_of.statement_tree (context_at scope.now locals.old.items next.old) (stmt_of t.now) ∷ []) }
    ensures cases { OnOk result (refusals.new.items ≡ refusals.old.items ++ statement_cases (context_at scope.now locals.old.items next.old) (stmt_of t.now)) }
    ensures locals { OnOk result (locals.new.items ≡ locals.old.items) }
    ensures next { OnOk result (next.new ≡ next.old + variable_count (stmt_of t.now)) }
{
    let count = locals.len();
    let done = statement(alloc, scope, t, locals, next, refusals, trees)?;
    locals.truncate(count);
    Ok(done)
}

// The body of a loop.
#[cycle(typing)]
fn loop_body(
    alloc: Global,
    scope: &StatementScope,
    t: &Stmt,
    locals: &mut Vec<Local>,
    next: &mut u32,
    refusals: &mut Vec<Refusal>,
    trees: &mut Vec<StatementTree>,
) -> Result<Completion, NoMemory>
    ensures completion { IfOk result (λ r. r ≡ completion (in_a_loop (context_at scope.now locals.old.items next.old)) (stmt_of t.now)) }
    ensures tree { OnOk result (map statement_of trees.new.items ≡ map statement_of trees.old.items ++ trees_of.statement_tree (in_a_loop (context_at scope.now locals.old.items next.old)) (stmt_of t.now) ∷ []) }
    ensures cases { OnOk result (refusals.new.items ≡ refusals.old.items ++ statement_cases (in_a_loop (context_at scope.now locals.old.items next.old)) (stmt_of t.now)) }
    ensures locals { OnOk result (locals.new.items ≡ locals.old.items) }
    ensures next { OnOk result (next.new ≡ next.old + variable_count (stmt_of t.now)) }
{
    let inside = StatementScope {
        in_loop: true,
        ..*scope
    };
    alone(alloc, &inside, t, locals, next, refusals, trees)
}

// A block (JLS 14.2).
#[cycle(typing)]
fn block(
    alloc: Global,
    scope: &StatementScope,
    b: &Block,
    locals: &mut Vec<Local>,
    next: &mut u32,
    refusals: &mut Vec<Refusal>,
    trees: &mut Vec<StatementTree>,
) -> Result<Completion, NoMemory>
    ensures completion { IfOk result (λ r. r ≡ block_completion (context_at scope.now locals.old.items next.old) (block_of b.now)) }
    ensures tree { OnOk result (map statement_of trees.new.items ≡ map statement_of trees.old.items ++ block_tree (context_at scope.now locals.old.items next.old) (block_of b.now) ∷ []) }
    ensures cases { OnOk result (refusals.new.items ≡ refusals.old.items ++ block_cases (context_at scope.now locals.old.items next.old) (block_of b.now)) }
    ensures locals { OnOk result (locals.new.items ≡ locals.old.items) }
    ensures next { OnOk result (next.new ≡ next.old + block_count (block_of b.now)) }
{
    let values = Vec::new(alloc);
    let mut inner = Vec::new(alloc);
    let done = statements(
        alloc,
        scope,
        &b.statements,
        locals,
        next,
        refusals,
        &mut inner,
    )?;
    trees.push(statement_tree(StatementShape::Block(b.end), b.pos, values, inner))?;
    Ok(done)
}

/// Statements one behind another, each in the scope of the declarations before it (JLS 6.3). It puts their typed trees at the
/// end of `trees`, and answers how they end. `next` is the number of the variable that is declared next.
#[cycle(typing)]
pub fn statements(
    alloc: Global,
    scope: &StatementScope,
    all: &[Stmt],
    locals: &mut Vec<Local>,
    next: &mut u32,
    refusals: &mut Vec<Refusal>,
    trees: &mut Vec<StatementTree>,
) -> Result<Completion, NoMemory>
    ensures completion { IfOk result (λ r. r ≡ statements_completion (context_at scope.now locals.old.items next.old) (statements_of (map stmt_of all.now))) }
    ensures tree { OnOk result (map statement_of trees.new.items ≡ map statement_of trees.old.items ++ statement_trees (context_at scope.now locals.old.items next.old) (statements_of (map stmt_of all.now))) }
    ensures cases { OnOk result (refusals.new.items ≡ refusals.old.items ++ statements_cases (context_at scope.now locals.old.items next.old) (statements_of (map stmt_of all.now))) }
    ensures locals { OnOk result (locals.new.items ≡ locals.old.items) }
    ensures next { OnOk result (next.new ≡ next.old + statements_count (statements_of (map stmt_of all.now))) }
{
    let count = locals.len();
    let mut done = normal();
    for t in all {
        let behind = statement(alloc, scope, t, locals, next, refusals, trees)?;
        done = and_then(done, behind);
    }
    locals.truncate(count);
    Ok(done)
}

// Catch clauses (JLS 14.20). They put their blocks at the end of `trees`, and what else they are at the end of `shapes`. The
// place is that of the `try`.
#[cycle(typing)]
fn clauses(
    alloc: Global,
    scope: &StatementScope,
    all: &[Catch],
    locals: &mut Vec<Local>,
    next: &mut u32,
    refusals: &mut Vec<Refusal>,
    trees: &mut Vec<StatementTree>,
    shapes: &mut Vec<CatchShape>,
    pos: Pos,
) -> Result<Completion, NoMemory>
    ensures completion { IfOk result (λ r. r ≡ catches_completion (context_at scope.now locals.old.items next.old) (catches (map catch_of all.now))) }
    ensures shapes { OnOk result (map catch_form shapes.new.items ≡ map catch_form shapes.old.items ++ catch_forms (context_at scope.now locals.old.items next.old) (catches (map catch_of all.now))) }
    ensures tree { OnOk result (map statement_of trees.new.items ≡ map statement_of trees.old.items ++ catch_trees (context_at scope.now locals.old.items next.old) (catches (map catch_of all.now))) }
    ensures cases { OnOk result (refusals.new.items ≡ refusals.old.items ++ catches_cases (context_at scope.now locals.old.items next.old) (catches (map catch_of all.now)) pos) }
    ensures locals { OnOk result (locals.new.items ≡ locals.old.items) }
    ensures next { OnOk result (next.new ≡ next.old + catches_count (catches (map catch_of all.now))) }
{
    let count = locals.len();
    let mut done = abrupt();
    for clause in all {
        let words = &clause.modifiers;
        let shape = clause_head(
            alloc,
            scope,
            locals,
            next,
            refusals,
            pos,
            words,
            &clause.classes,
            &clause.name,
        )?;
        let behind = block(alloc, scope, &clause.block, locals, next, refusals, trees)?;
        locals.truncate(count);
        shapes.push(shape)?;
        done = one_of(done, behind);
    }
    Ok(done)
}

// The block of `finally`, where there is one.
#[cycle(typing)]
fn finally_block(
    alloc: Global,
    scope: &StatementScope,
    last: &Option<Block>,
    locals: &mut Vec<Local>,
    next: &mut u32,
    refusals: &mut Vec<Refusal>,
    trees: &mut Vec<StatementTree>,
) -> Result<Completion, NoMemory>
    ensures completion { IfOk result (λ r. r ≡ finally_completion (context_at scope.now locals.old.items next.old) (maybe_block (option_map block_of last.now))) }
    ensures tree { OnOk result (map statement_of trees.new.items ≡ map statement_of trees.old.items ++ finally_tree (context_at scope.now locals.old.items next.old) (maybe_block (option_map block_of last.now))) }
    ensures cases { OnOk result (refusals.new.items ≡ refusals.old.items ++ finally_cases (context_at scope.now locals.old.items next.old) (maybe_block (option_map block_of last.now))) }
    ensures locals { OnOk result (locals.new.items ≡ locals.old.items) }
    ensures next { OnOk result (next.new ≡ next.old + finally_count (maybe_block (option_map block_of last.now))) }
{
    match last {
        None => Ok(normal()),
        Some(found) => block(alloc, scope, found, locals, next, refusals, trees),
    }
}

// The resources and the block of a `try` (JLS 14.20.3). It puts the trees of the initialisers at the end of `values`, and the
// resources, as the typed statement keeps them, at the end of `shapes`. The place is that of the `try`.
#[cycle(typing)]
fn guarded_block(
    alloc: Global,
    scope: &StatementScope,
    b: &Block,
    locals: &mut Vec<Local>,
    next: &mut u32,
    refusals: &mut Vec<Refusal>,
    trees: &mut Vec<StatementTree>,
    opened: &[Resource],
    shapes: &mut Vec<ResourceShape>,
    values: &mut Vec<ExpressionTree>,
    pos: Pos,
) -> Result<Completion, NoMemory>
    ensures completion { IfOk result (λ r. r ≡ block_completion (behind_resources (context_at scope.now locals.old.items next.old) (map resource_of opened.now)) (block_of b.now)) }
    ensures shapes { OnOk result (shapes.new.items ≡ shapes.old.items ++ resource_shapes (context_at scope.now locals.old.items next.old) (map resource_of opened.now)) }
    ensures openings { OnOk result (map tree_of values.new.items ≡ map tree_of values.old.items ++ opening_trees (context_at scope.now locals.old.items next.old) (map resource_of opened.now)) }
    ensures tree { OnOk result (map statement_of trees.new.items ≡ map statement_of trees.old.items ++ block_tree (behind_resources (context_at scope.now locals.old.items next.old) (map resource_of opened.now)) (block_of b.now) ∷ []) }
    ensures cases { OnOk result (refusals.new.items ≡ refusals.old.items ++ resources_cases (context_at scope.now locals.old.items next.old) (map resource_of opened.now) pos ++ block_cases (behind_resources (context_at scope.now locals.old.items next.old) (map resource_of opened.now)) (block_of b.now)) }
    ensures locals { OnOk result (locals.new.items ≡ locals.old.items) }
    ensures next { OnOk result (next.new ≡ next.old + length opened.now + block_count (block_of b.now)) }
{
    let count = locals.len();
    try_resources(
        alloc, scope, locals, next, refusals, values, shapes, opened, pos,
    )?;
    let done = block(alloc, scope, b, locals, next, refusals, trees)?;
    locals.truncate(count);
    Ok(done)
}
