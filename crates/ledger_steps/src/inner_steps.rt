//! Steps within a frame, which begin and end no call.

ghost use Rattle.std.specs.Prelude.{◌≡◌, ◌∷◌, map, reverse, IfOk};
ghost use Rattle.ledger_obligations.specs.Obligations.{held_in};
ghost use Rattle.ledger_state.specs.Locals.{held};
ghost use Rattle.ledger_steps.specs.InnerSteps.{inner};

use crate::effect::{StepEffect, left};
use crate::store::store_unless;
use crate::stores::heap_stored;
use crate::thrown::thrown_heap;
use control_actions::Action;
use ledger_obligations::ActiveFrame;
use ledger_state::{Heap, Locals};
use program_model::{ClassId, MethodId, Program};
use rlc_base::{NoMemory, Pos};
use std::alloc::Global;

/// What a step within a frame of the method leaves, where it throws an exception of this class or none. `top` are the values of
/// the frame after the step, and `below` are the frames below it.
pub fn inner_effect(
    alloc: Global,
    p: &Program,
    pos: Pos,
    method: MethodId,
    locals: &Locals,
    thrown: Option<ClassId>,
    action: Action,
    heap: &Heap,
    top: &Locals,
    below: &[ActiveFrame],
) -> Result<StepEffect, NoMemory>
    ensures heap { IfOk result (λ e. e.heap ≡ (inner p.now heap.now method locals.now thrown action pos (held top.now ∷ map held_in (reverse below.now))).heap) }
    ensures lines { IfOk result (λ e. e.lines.items ≡ (inner p.now heap.now method locals.now thrown action pos (held top.now ∷ map held_in (reverse below.now))).lines) }
{
    let store = store_unless(thrown, locals, action);
    let before = thrown_heap(alloc, p, thrown, heap)?;
    let mut lines = Vec::new(alloc);
    let mut leaks = Vec::new(alloc);
    let after = heap_stored(
        alloc, p, pos, method, locals, store, &before, &mut lines, &mut leaks,
    )?;
    let effect = left(alloc, p, pos, top, below, &after, lines, leaks)?;
    Ok(effect)
}
