//! Calls of the program's methods as they begin.

ghost use Rattle.std.specs.Prelude.{◌≡◌, ◌∷◌, map, reverse, IfOk, OnOk};
ghost use Rattle.ledger_calls.specs.Calls.{arguments_moved};
ghost use Rattle.ledger_obligations.specs.Obligations.{held_in};
ghost use Rattle.ledger_state.specs.Locals.{held};
ghost use Rattle.ledger_steps.specs.CallSteps.{object_begun, object_of_new, self_begun, started};
ghost use Rattle.program_model.specs.Lookups.{method_at};

use crate::effect::{StepEffect, left};
use control_actions::Action;
use ledger_calls::{move_arguments, operand_of};
use ledger_entries::owner_entries;
use ledger_obligations::ActiveFrame;
use ledger_state::{Heap, Locals, Owner, Value};
use program_model::{MethodId, Program};
use rlc_base::{NoMemory, Pos};
use std::alloc::Global;

fn begin_object(p: &Program, named: MethodId, heap: &mut Heap) -> Result<(), NoMemory>
    ensures { OnOk result (heap.new ≡ object_begun (method_at p.now named) heap.old) }
{
    match p.method(named) {
        None => Ok(()),
        Some(m) => heap.append(m.class),
    }
}

// The heap with the object of a `new`, which is not finished.
fn object_of_new(
    alloc: Global,
    p: &Program,
    action: Action,
    named: MethodId,
    heap: &Heap,
) -> Result<Heap, NoMemory>
    ensures { IfOk result (λ h. h ≡ object_of_new action (method_at p.now named) heap.now) }
{
    let mut after = heap.copy(alloc)?;
    if let Action::New(_, _, _) = action {
        begin_object(p, named, &mut after)?;
    }
    Ok(after)
}

/// What `this` is in the frame that the call begins.
pub fn self_begun(locals: &Locals, action: Action, heap: &Heap) -> Value
    ensures { result ≡ self_begun locals.now action heap.now }
{
    match action {
        Action::New(_, _, _) => Value::Object(heap.next_number()),
        _ => operand_of(locals, action, 0),
    }
}

/// The heap when the owning arguments of the call have moved to this owner.
pub(crate) fn arguments_moved(
    alloc: Global,
    p: &Program,
    owner: Owner,
    locals: &Locals,
    action: Action,
    named: MethodId,
    heap: &Heap,
) -> Result<Heap, NoMemory>
    ensures { IfOk result (λ h. h ≡ arguments_moved p.now owner locals.now action (method_at p.now named) heap.now) }
{
    let mut after = heap.copy(alloc)?;
    move_arguments(p, owner, locals, action, named, &mut after);
    Ok(after)
}

/// What the start of a call leaves, where the frame that it begins is at this position. `locals` are the values of the caller,
/// `top` those of the frame that begins, and `below` are the frames below that, of which the caller is the last.
pub fn start_effect(
    alloc: Global,
    p: &Program,
    pos: Pos,
    locals: &Locals,
    action: Action,
    named: MethodId,
    position: u64,
    heap: &Heap,
    top: &Locals,
    below: &[ActiveFrame],
) -> Result<StepEffect, NoMemory>
    ensures heap { IfOk result (λ e. e.heap ≡ (started p.now heap.now locals.now action (method_at p.now named) position pos (held top.now ∷ map held_in (reverse below.now))).heap) }
    ensures lines { IfOk result (λ e. e.lines.items ≡ (started p.now heap.now locals.now action (method_at p.now named) position pos (held top.now ∷ map held_in (reverse below.now))).lines) }
{
    let made = object_of_new(alloc, p, action, named, heap)?;
    let moved = arguments_moved(
        alloc,
        p,
        Owner::Frame(position),
        locals,
        action,
        named,
        &made,
    )?;
    let mut lines = Vec::new(alloc);
    owner_entries(p, pos, &made, &moved, &mut lines)?;
    let effect = left(alloc, p, pos, top, below, &moved, lines, Vec::new(alloc))?;
    Ok(effect)
}
