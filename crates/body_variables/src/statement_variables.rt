//! The variables that statements declare, each with all in it.

ghost use Rattle.std.specs.Prelude.{◌≡◌, ◌++◌, OnOk, map};
ghost use Rattle.java_syntax.specs.StatementTrees.{block_of, catch_of, catches, statements, stmt_of};
ghost use Rattle.java_statement_rules.specs.Surroundings.{surroundings_of};
ghost use Rattle.body_variables.specs.BodyVariables.{all_variables, block_variables, catch_variables, variables_of};
ghost use Rattle.body_variables.specs.Declarations.{variable_in};

use crate::declarations::{push_catch, push_local, push_resources, push_start};
use java_statement_rules::BodyScope;
use java_syntax::{Block, Catch, Stmt};
use program_model::Var;
use rlc_base::NoMemory;
use std::alloc::Global;

// Puts the variables of a statement at the end.
#[cycle(variables)]
fn push_statement(
    alloc: Global,
    scope: &BodyScope,
    made: &mut Vec<Var>,
    t: &Stmt,
) -> Result<(), NoMemory>
    ensures { OnOk result (map variable_in made.new.items ≡ map variable_in made.old.items ++ variables_of (surroundings_of scope.now) (stmt_of t.now)) }
{
    match t {
        Stmt::Block(block) => push_block(alloc, scope, made, block),
        Stmt::Empty { .. } => Ok(()),
        Stmt::Local { local, .. } => push_local(alloc, scope, made, local),
        Stmt::Expression { .. } => Ok(()),
        Stmt::If {
            then,
            otherwise,
            ..
        } => {
            push_statement(alloc, scope, made, then)?;
            match otherwise {
                None => Ok(()),
                Some(other) => push_statement(alloc, scope, made, other),
            }
        }
        Stmt::While { body, .. } => push_statement(alloc, scope, made, body),
        Stmt::Do { body, .. } => push_statement(alloc, scope, made, body),
        Stmt::For { start, body, .. } => {
            push_start(alloc, scope, made, start)?;
            push_statement(alloc, scope, made, body)
        }
        Stmt::Try {
            resources,
            block,
            catches,
            finally,
            ..
        } => {
            push_resources(alloc, scope, made, resources)?;
            push_block(alloc, scope, made, block)?;
            push_catches(alloc, scope, made, catches)?;
            match finally {
                None => Ok(()),
                Some(last) => push_block(alloc, scope, made, last),
            }
        }
        Stmt::Return { .. } => Ok(()),
        Stmt::Throw { .. } => Ok(()),
        Stmt::Break { .. } => Ok(()),
        Stmt::Continue { .. } => Ok(()),
    }
}

// Puts the variables of a block at the end.
#[cycle(variables)]
fn push_block(
    alloc: Global,
    scope: &BodyScope,
    made: &mut Vec<Var>,
    block: &Block,
) -> Result<(), NoMemory>
    ensures { OnOk result (map variable_in made.new.items ≡ map variable_in made.old.items ++ block_variables (surroundings_of scope.now) (block_of block.now)) }
{
    push_statements(alloc, scope, made, &block.statements)
}

/// Puts the variables of these statements at the end.
#[cycle(variables)]
pub(crate) fn push_statements(
    alloc: Global,
    scope: &BodyScope,
    made: &mut Vec<Var>,
    all: &[Stmt],
) -> Result<(), NoMemory>
    ensures { OnOk result (map variable_in made.new.items ≡ map variable_in made.old.items ++ all_variables (surroundings_of scope.now) (statements (map stmt_of all.now))) }
{
    for t in all {
        push_statement(alloc, scope, made, t)?;
    }
    Ok(())
}

// Puts the variables of catch clauses at the end, each parameter before those of its block.
#[cycle(variables)]
fn push_catches(
    alloc: Global,
    scope: &BodyScope,
    made: &mut Vec<Var>,
    all: &[Catch],
) -> Result<(), NoMemory>
    ensures { OnOk result (map variable_in made.new.items ≡ map variable_in made.old.items ++ catch_variables (surroundings_of scope.now) (catches (map catch_of all.now))) }
{
    for clause in all {
        let words = &clause.modifiers;
        push_catch(alloc, scope, made, words, &clause.classes, &clause.name)?;
        push_block(alloc, scope, made, &clause.block)?;
    }
    Ok(())
}
