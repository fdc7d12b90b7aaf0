//! The frames of a run.

ghost use Rattle.std.specs.Prelude.{◌≡◌, ◌≤◌, ◌++◌, ◌-◌, length, map, replicate, IfOk};
ghost use Rattle.java_control.specs.Changes.{highest_steps, step_in};
ghost use Rattle.java_control.specs.Control.{start_of};
ghost use Rattle.java_control.specs.Remaining.{todos};
ghost use Rattle.java_control.specs.Tables.{Keeps, list_at};
ghost use Rattle.ledger_frames.specs.LedgerCallsCalls.{begun, body_of, variable_count};
ghost use Rattle.ledger_frames.specs.Choosing.{frame_steps};
ghost use Rattle.ledger_moves.specs.Frames.{frame_seen, start_by};
ghost use Rattle.ledger_state.specs.declared.value.Value.TheVariants as values;
ghost use Rattle.program_model.specs.Lookups.{method_at};

use java_control::{Lists, Triple, next, start};
use ledger_obligations::ActiveFrame;
use ledger_state::{Locals, Value, Values};
use program_model::{BodyId, MethodId, Program};
use rlc_base::NoMemory;
use std::alloc::Global;

fn body_of(p: &Program, method: MethodId) -> Option<BodyId>
    ensures { result ≡ body_of (method_at p.now method) }
{
    match p.method(method) {
        None => None,
        Some(m) => m.body,
    }
}

fn variable_count(p: &Program, body: Option<BodyId>) -> usize
    ensures { result ≡ variable_count p.now body }
{
    match body {
        None => 0,
        Some(b) => match p.body(b) {
            None => 0,
            Some(found) => found.vars.len(),
        },
    }
}

// The values of the variables of a method that begins: those of its arguments, and nothing in the others.
fn filled(arguments: Vec<Value>, count: usize) -> Result<Vec<Value>, NoMemory>
    ensures { IfOk result (λ v. v.items ≡ arguments.items ++ replicate (count - length arguments.items) values.Nothing) }
{
    let mut variables = arguments;
    let total = variables.len().max(count);
    variables.resize(total, Value::Nothing)?;
    Ok(variables)
}

fn start_by(
    alloc: Global,
    lists: &mut Lists,
    p: &Program,
    body: Option<BodyId>,
) -> Result<usize, NoMemory>
    ensures start { IfOk result (λ id. todos (list_at lists.new.cells.keys id) ≡ start_by p.now body) }
    ensures within { IfOk result (λ id. id ≤ length lists.new.cells.keys) }
    ensures kept { Keeps lists.old.cells.keys lists.new.cells.keys }
{
    match body {
        None => Ok(lists.empty()),
        Some(b) => start(alloc, lists, p, b),
    }
}

/// The frame of a method that begins, with its `this` and the values of its arguments. What is to run is added to the table
/// of lists.
#[tactic(auto, using(crate::proofs::FrameLaws::begun_as))]
pub fn begin(
    alloc: Global,
    p: &Program,
    lists: &mut Lists,
    method: MethodId,
    this: Value,
    arguments: Vec<Value>,
) -> Result<ActiveFrame, NoMemory>
    ensures frame { IfOk result (λ fr. frame_seen lists.new.cells.keys fr ≡ begun p.now method this arguments.items) }
    ensures within { IfOk result (λ fr. fr.control ≤ length lists.new.cells.keys) }
    ensures kept { Keeps lists.old.cells.keys lists.new.cells.keys }
{
    let body = body_of(p, method);
    let control = start_by(alloc, lists, p, body)?;
    let variables = filled(arguments, variable_count(p, body))?;
    Ok(ActiveFrame {
        method,
        control,
        locals: Locals {
            variables: Values::of(variables),
            this,
            temps: Values::of(Vec::new(alloc)),
        },
    })
}

/// The steps of the frame. What is left to run after each is added to the table of lists.
pub fn frame_steps(
    alloc: Global,
    lists: &mut Lists,
    p: &Program,
    frame: &ActiveFrame,
) -> Result<Vec<Triple>, NoMemory>
    requires { frame.now.control ≤ length lists.old.cells.keys }
    ensures steps { IfOk result (λ v. map (step_in lists.new.cells.keys) v.items ≡ frame_steps p.now (frame_seen lists.old.cells.keys frame.now)) }
    ensures within { IfOk result (λ v. highest_steps v.items ≤ length lists.new.cells.keys) }
    ensures kept { Keeps lists.old.cells.keys lists.new.cells.keys }
{
    match body_of(p, frame.method) {
        None => Ok(Vec::new(alloc)),
        Some(b) => next(alloc, lists, p, b, frame.control),
    }
}
