//! How many variables statements declare.

ghost use Rattle.std.specs.Prelude.{◌≡◌, ◌+◌, IfOk, map, option_map, length};
ghost use Rattle.java_syntax.specs.StatementTrees.{block_of, catch_of, catches, for_start_of, maybe_block, statements, stmt_of};
ghost use Rattle.java_statement_scopes.specs.VariableCounts.{block_count, catches_count, finally_count, start_count, statements_count, variable_count};

use java_syntax::{Block, Catch, ForStart, Resource, Stmt};
use rlc_base::NoMemory;

/// The sum, where it is a number of 32 bits.
fn sum(a: u32, b: u32) -> Result<u32, NoMemory>
    ensures { IfOk result (λ n. n ≡ a + b) }
{
    match a.checked_add(b) {
        None => Err(NoMemory),
        Some(both) => Ok(both),
    }
}

/// The length of a list, where it is a number of 32 bits.
fn count_of(len: usize) -> Result<u32, NoMemory>
    ensures { IfOk result (λ n. n ≡ len) }
{
    if len > u32::MAX as usize {
        Err(NoMemory)
    } else {
        Ok(len as u32)
    }
}

fn start_count(start: &ForStart) -> Result<u32, NoMemory>
    ensures { IfOk result (λ n. n ≡ start_count (for_start_of start.now)) }
{
    match start {
        ForStart::Declaration(local) => count_of(local.variables.len()),
        ForStart::Expressions(_) => Ok(0),
    }
}

/// How many variables the statement declares with all in it (JLS 14.4, 14.14.1, 14.20).
#[cycle(counts)]
fn variable_count(t: &Stmt) -> Result<u32, NoMemory>
    ensures { IfOk result (λ n. n ≡ variable_count (stmt_of t.now)) }
{
    match t {
        Stmt::Block(block) => block_count(block),
        Stmt::Empty { .. } => Ok(0),
        Stmt::Local { local, .. } => count_of(local.variables.len()),
        Stmt::Expression { .. } => Ok(0),
        Stmt::If {
            then,
            otherwise,
            ..
        } => match otherwise {
            None => variable_count(then),
            Some(other) => sum(variable_count(then)?, variable_count(other)?),
        },
        Stmt::While { body, .. } => variable_count(body),
        Stmt::Do { body, .. } => variable_count(body),
        Stmt::For { start, body, .. } => sum(start_count(start)?, variable_count(body)?),
        Stmt::Try {
            resources,
            block,
            catches,
            finally,
            ..
        } => {
            let opened = count_of(resources.len())?;
            let before = sum(opened, block_count(block)?)?;
            let caught = sum(before, catches_count(catches)?)?;
            sum(caught, finally_count(finally)?)
        }
        Stmt::Return { .. } => Ok(0),
        Stmt::Throw { .. } => Ok(0),
        Stmt::Break { .. } => Ok(0),
        Stmt::Continue { .. } => Ok(0),
    }
}

/// How many variables the statements of a block declare.
#[cycle(counts)]
fn block_count(block: &Block) -> Result<u32, NoMemory>
    ensures { IfOk result (λ n. n ≡ block_count (block_of block.now)) }
{
    statements_count(&block.statements)
}

/// How many variables statements declare.
#[cycle(counts)]
fn statements_count(all: &[Stmt]) -> Result<u32, NoMemory>
    ensures { IfOk result (λ n. n ≡ statements_count (statements (map stmt_of all.now))) }
{
    let mut count = 0;
    for t in all {
        count = sum(count, variable_count(t)?)?;
    }
    Ok(count)
}

/// How many variables catch clauses declare, their parameters among them.
#[cycle(counts)]
fn catches_count(all: &[Catch]) -> Result<u32, NoMemory>
    ensures { IfOk result (λ n. n ≡ catches_count (catches (map catch_of all.now))) }
{
    let mut count = 0;
    for clause in all {
        let inner = sum(1, block_count(&clause.block)?)?;
        count = sum(count, inner)?;
    }
    Ok(count)
}

// How many variables the block of `finally` declares, where there is one.
#[cycle(counts)]
fn finally_count(last: &Option<Block>) -> Result<u32, NoMemory>
    ensures { IfOk result (λ n. n ≡ finally_count (maybe_block (option_map block_of last.now))) }
{
    match last {
        None => Ok(0),
        Some(found) => block_count(found),
    }
}

/// The number of the first variable of a `finally`: those of the resources, of the block and of the clauses come before.
pub fn number_of_last(
    next: u32,
    opened: &[Resource],
    b: &Block,
    caught: &[Catch],
) -> Result<u32, NoMemory>
    ensures { IfOk result (λ n. n ≡ next + length opened.now + block_count (block_of b.now) + catches_count (catches (map catch_of caught.now))) }
{
    let behind = sum(next, count_of(opened.len())?)?;
    let behind = sum(behind, block_count(b)?)?;
    sum(behind, catches_count(caught)?)
}
