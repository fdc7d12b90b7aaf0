ghost use Rattle.std.specs.Prelude.{◌≡◌, ℕ, true};
ghost use Rattle.java_values.specs.Values.{values_of};
ghost use Rattle.java_values.specs.Kinds.{Fits};
ghost use Rattle.java_values.specs.Outcomes.{Gives, IsNoMisfit};
ghost use Rattle.java_statement_actions.specs.StatementActions.{takes_statement, perform_statement, is_of_variables, is_of_lists, is_of_plain_statements, is_of_nesting_statements, is_of_loops};
ghost use Rattle.java_syntax.specs.declared.actions.StatementAction.TheVariants as action;

use java_nodes::{
    block_statement, catch_clause, do_statement, for_statement, if_else_statement, if_statement,
    initialized, local, plain_variable, resource, statement, try_finally_statement, try_statement,
    while_statement,
};
use java_syntax::{ForStart, StatementAction, Stmt};
use java_values::{
    BuildFail, Nested, Value, added, appended, leave, leave_statement, none, pop_block,
    pop_catches, pop_expression, pop_expressions, pop_for_start, pop_local, pop_modifiers,
    pop_name, pop_names, pop_optional_expression, pop_place, pop_resources, pop_statement,
    pop_statements, pop_typ, pop_variables,
};
use std::alloc::Global;

/// Does an action of declarations of variables.
#[tactic(auto, using(crate::proofs::StatementActionLaws::variable_laws))]
fn variable_action(
    alloc: Global,
    action: StatementAction,
    stack: &mut Vec<Value>,
) -> Result<(), BuildFail>
    requires group { is_of_variables action ≡ true }
    requires fits { Fits (takes_statement action) (values_of stack.old.items) }
    ensures { (limit : ℕ) → Gives (λ _. values_of stack.new.items) result (perform_statement limit action (values_of stack.old.items)) }
{
    match action {
        StatementAction::FirstVariable => {
            let name = pop_name(stack);
            let variables = leave(stack, Value::Variables(none(alloc)));
            let first = leave(stack, Value::Name(name));
            variables?;
            first
        }
        StatementAction::Variable => {
            let value = pop_expression(stack);
            let name = pop_name(stack);
            let all = pop_variables(stack);
            let made = added(all, initialized(name, value))?;
            leave(stack, Value::Variables(made))
        }
        StatementAction::PlainVariable => {
            let name = pop_name(stack);
            let all = pop_variables(stack);
            let made = added(all, plain_variable(name))?;
            leave(stack, Value::Variables(made))
        }
        StatementAction::PlainLocal => {
            let all = pop_variables(stack);
            let typ = pop_typ(stack);
            leave(stack, Value::Local(local(none(alloc), typ, all)))
        }
        StatementAction::ModifiedLocal => {
            let all = pop_variables(stack);
            let typ = pop_typ(stack);
            let modifiers = pop_modifiers(stack);
            leave(stack, Value::Local(local(modifiers, typ, all)))
        }
        _other => unreachable!(),
    }
}

/// Does an action of lists.
#[tactic(auto, using(crate::proofs::StatementActionLaws::list_laws))]
fn list_action(
    alloc: Global,
    limit: u32,
    action: StatementAction,
    stack: &mut Vec<Value>,
) -> Result<(), BuildFail>
    requires group { is_of_lists action ≡ true }
    requires fits { Fits (takes_statement action) (values_of stack.old.items) }
    ensures { Gives (λ _. values_of stack.new.items) result (perform_statement limit action (values_of stack.old.items)) }
{
    match action {
        StatementAction::NoStatements => leave(stack, Value::Statements(none(alloc))),
        StatementAction::AndStatement => {
            let one = pop_statement(stack);
            let all = pop_statements(stack);
            leave(stack, Value::Statements(added(all, one)?))
        }
        StatementAction::NoResources => leave(stack, Value::Resources(none(alloc))),
        StatementAction::Resource => {
            let value = pop_expression(stack);
            let name = pop_name(stack);
            let class = pop_name(stack);
            let modifiers = pop_modifiers(stack);
            let all = pop_resources(stack);
            let made = added(all, resource(modifiers, class, name, value))?;
            leave(stack, Value::Resources(made))
        }
        StatementAction::NoCatches => leave(stack, Value::Catches(none(alloc))),
        StatementAction::Catch => {
            let block = pop_block(stack);
            let name = pop_name(stack);
            let classes = pop_names(stack);
            let modifiers = pop_modifiers(stack);
            let all = pop_catches(stack);
            let clause = catch_clause(limit, modifiers, classes, name, block)?;
            leave(stack, Value::Catches(added(all, clause)?))
        }
        StatementAction::NoNames => leave(stack, Value::Names(Vec::new(alloc))),
        StatementAction::AndName => {
            let one = pop_name(stack);
            let all = pop_names(stack);
            leave(stack, Value::Names(appended(all, one)?))
        }
        StatementAction::FirstExpression => {
            let e = pop_expression(stack);
            let _start = pop_place(stack);
            leave(stack, Value::Expressions(added(none(alloc), e)?))
        }
        _other => unreachable!(),
    }
}

/// Does an action of a statement that has no other in it, or of an expression that may be absent.
#[tactic(auto, using(crate::proofs::StatementActionLaws::plain_laws))]
fn plain_action(
    limit: u32,
    action: StatementAction,
    stack: &mut Vec<Value>,
) -> Result<(), BuildFail>
    requires group { is_of_plain_statements action ≡ true }
    requires fits { Fits (takes_statement action) (values_of stack.old.items) }
    ensures { Gives (λ _. values_of stack.new.items) result (perform_statement limit action (values_of stack.old.items)) }
{
    match action {
        StatementAction::LocalStatement => {
            let declared = pop_local(stack);
            let pos = pop_place(stack).pos;
            let local = declared.tree;
            let made = statement(limit, declared.depth, Stmt::Local { local, pos }, pos);
            leave_statement(stack, made)
        }
        StatementAction::ExpressionStatement => {
            let e = pop_expression(stack);
            let pos = pop_place(stack).pos;
            let expression = e.tree;
            let made = statement(limit, e.depth, Stmt::Expression { expression, pos }, pos);
            leave_statement(stack, made)
        }
        StatementAction::Return => {
            let result = pop_optional_expression(stack);
            let pos = pop_place(stack).pos;
            let value = result.tree;
            let made = statement(limit, result.depth, Stmt::Return { value, pos }, pos);
            leave_statement(stack, made)
        }
        StatementAction::Throw => {
            let thrown = pop_expression(stack);
            let (pos, value) = (pop_place(stack).pos, thrown.tree);
            let made = statement(limit, thrown.depth, Stmt::Throw { value, pos }, pos);
            leave_statement(stack, made)
        }
        StatementAction::SomeExpression => {
            let e = pop_expression(stack);
            let (tree, depth) = (Some(e.tree), e.depth);
            leave(stack, Value::OptionalExpression(Nested { tree, depth }))
        }
        StatementAction::NoExpression => {
            let (tree, depth) = (None, 0);
            leave(stack, Value::OptionalExpression(Nested { tree, depth }))
        }
        _other => unreachable!(),
    }
}

/// Does an action of a block, an `if` or a `try`.
#[tactic(auto, using(crate::proofs::StatementActionLaws::nesting_laws))]
fn nesting_action(
    alloc: Global,
    limit: u32,
    action: StatementAction,
    stack: &mut Vec<Value>,
) -> Result<(), BuildFail>
    requires group { is_of_nesting_statements action ≡ true }
    requires fits { Fits (takes_statement action) (values_of stack.old.items) }
    ensures { Gives (λ _. values_of stack.new.items) result (perform_statement limit action (values_of stack.old.items)) }
{
    match action {
        StatementAction::BlockStatement => {
            let block = pop_block(stack);
            leave_statement(stack, block_statement(limit, block))
        }
        StatementAction::If => {
            let body = pop_statement(stack);
            let condition = pop_expression(stack);
            let word = pop_place(stack);
            leave_statement(stack, if_statement(alloc, limit, condition, body, word.pos))
        }
        StatementAction::IfElse => {
            let otherwise = pop_statement(stack);
            let body = pop_statement(stack);
            let condition = pop_expression(stack);
            let word = pop_place(stack);
            let made = if_else_statement(alloc, limit, condition, body, otherwise, word.pos);
            leave_statement(stack, made)
        }
        StatementAction::Try => {
            let all = pop_catches(stack);
            let block = pop_block(stack);
            let resources = pop_resources(stack);
            let word = pop_place(stack);
            leave_statement(stack, try_statement(limit, resources, block, all, word.pos))
        }
        StatementAction::TryFinally => {
            let last = pop_block(stack);
            let all = pop_catches(stack);
            let block = pop_block(stack);
            let resources = pop_resources(stack);
            let word = pop_place(stack);
            let made = try_finally_statement(limit, resources, block, all, last, word.pos);
            leave_statement(stack, made)
        }
        _other => unreachable!(),
    }
}

/// Does an action of a loop.
#[tactic(auto, using(crate::proofs::StatementActionLaws::loop_laws))]
fn loop_action(
    alloc: Global,
    limit: u32,
    action: StatementAction,
    stack: &mut Vec<Value>,
) -> Result<(), BuildFail>
    requires group { is_of_loops action ≡ true }
    requires fits { Fits (takes_statement action) (values_of stack.old.items) }
    ensures { Gives (λ _. values_of stack.new.items) result (perform_statement limit action (values_of stack.old.items)) }
{
    match action {
        StatementAction::While => {
            let body = pop_statement(stack);
            let condition = pop_expression(stack);
            let word = pop_place(stack);
            let made = while_statement(alloc, limit, condition, body, word.pos);
            leave_statement(stack, made)
        }
        StatementAction::Do => {
            let condition = pop_expression(stack);
            let body = pop_statement(stack);
            let word = pop_place(stack);
            leave_statement(stack, do_statement(alloc, limit, body, condition, word.pos))
        }
        StatementAction::For => {
            let body = pop_statement(stack);
            let updates = pop_expressions(stack);
            let condition = pop_optional_expression(stack);
            let start = pop_for_start(stack);
            let word = pop_place(stack);
            let made = for_statement(alloc, limit, start, condition, updates, body, word.pos);
            leave_statement(stack, made)
        }
        StatementAction::ForLocal => {
            let declared = pop_local(stack);
            let _start = pop_place(stack);
            let depth = declared.depth;
            let tree = ForStart::Declaration(declared.tree);
            leave(stack, Value::ForStart(Nested { tree, depth }))
        }
        StatementAction::ForExpressions => {
            let all = pop_expressions(stack);
            let depth = all.depth;
            let tree = ForStart::Expressions(all.tree);
            leave(stack, Value::ForStart(Nested { tree, depth }))
        }
        _other => unreachable!(),
    }
}

/// Does the action, which finds values of the kinds that it takes.
///
/// # Errors
///
/// `TooDeep` where what it makes would be deeper than the limit.
#[tactic(auto, using(crate::proofs::StatementActionLaws::statement_fits))]
pub fn perform_statement_action(
    alloc: Global,
    limit: u32,
    action: StatementAction,
    stack: &mut Vec<Value>,
) -> Result<(), BuildFail>
    requires { IsNoMisfit (perform_statement limit action (values_of stack.old.items)) }
    ensures { Gives (λ _. values_of stack.new.items) result (perform_statement limit action (values_of stack.old.items)) }
{
    match action {
        StatementAction::FirstVariable
        | StatementAction::Variable
        | StatementAction::PlainVariable
        | StatementAction::PlainLocal
        | StatementAction::ModifiedLocal => variable_action(alloc, action, stack),
        StatementAction::NoStatements
        | StatementAction::AndStatement
        | StatementAction::NoResources
        | StatementAction::Resource
        | StatementAction::NoCatches
        | StatementAction::Catch
        | StatementAction::NoNames
        | StatementAction::AndName
        | StatementAction::FirstExpression => list_action(alloc, limit, action, stack),
        StatementAction::LocalStatement
        | StatementAction::ExpressionStatement
        | StatementAction::Return
        | StatementAction::Throw
        | StatementAction::SomeExpression
        | StatementAction::NoExpression => plain_action(limit, action, stack),
        StatementAction::BlockStatement
        | StatementAction::If
        | StatementAction::IfElse
        | StatementAction::Try
        | StatementAction::TryFinally => nesting_action(alloc, limit, action, stack),
        StatementAction::While
        | StatementAction::Do
        | StatementAction::For
        | StatementAction::ForLocal
        | StatementAction::ForExpressions => loop_action(alloc, limit, action, stack),
    }
}
