//! Calls of the library, which begin and end in one step.

ghost use Rattle.std.specs.Prelude.{◌≡◌, ◌∷◌, ◌++◌, map, reverse, IfOk, OnOk};
ghost use Rattle.ledger_calls.specs.Calls.{reset_target};
ghost use Rattle.ledger_calls.specs.Conducts.{library_birth, library_notes, object_made, positions};
ghost use Rattle.ledger_entries.specs.Entries.{birth_entries, called_entries, reset_entries};
ghost use Rattle.ledger_obligations.specs.Obligations.{held_in, noted, reached, reset_roots};
ghost use Rattle.ledger_state.specs.Locals.{held};
ghost use Rattle.ledger_steps.specs.CallSteps.{library_done, library_entries, library_heap};
ghost use Rattle.program_model.specs.Lookups.{method_at};

use crate::call_starts::arguments_moved;
use crate::effect::{StepEffect, left};
use crate::notes_and_resets::note_and_reset;
use control_actions::Action;
use ledger_calls::{add_library_notes, library_birth, made_by_new, reset_target};
use ledger_entries::{birth_entries, owner_entries};
use ledger_obligations::{ActiveFrame, Note};
use ledger_state::{Entry, Heap, Locals, Owner};
use program_model::{MethodId, Program};
use rlc_base::{NoMemory, Pos};
use std::alloc::Global;
use stub_conduct::Conduct;

// The heap with the object that the call makes, which is not finished.
fn object_made(alloc: Global, conduct: Conduct, heap: &Heap) -> Result<Heap, NoMemory>
    ensures { IfOk result (λ h. h ≡ object_made conduct heap.now) }
{
    let mut after = heap.copy(alloc)?;
    match conduct {
        Conduct::Throws(class) | Conduct::Fresh(class) => after.append(class)?,
        Conduct::Null
        | Conduct::Existing(_)
        | Conduct::Argument
        | Conduct::Value(_)
        | Conduct::Nothing => {}
    }
    Ok(after)
}

fn library_notes(
    alloc: Global,
    p: &Program,
    heap: &Heap,
    locals: &Locals,
    action: Action,
    named: MethodId,
    method: MethodId,
    number: u64,
    conduct: Conduct,
) -> Result<Vec<Note>, NoMemory>
    ensures { IfOk result (λ v. v.items ≡ library_notes p.now heap.now locals.now action (method_at p.now named) (method_at p.now method) number conduct) }
{
    let mut notes = Vec::new(alloc);
    add_library_notes(
        p, heap, locals, action, named, method, number, conduct, &mut notes,
    )?;
    Ok(notes)
}

// The heap when the object that the call makes has its set and its owner. Puts its line at the end of the list.
fn born(
    alloc: Global,
    p: &Program,
    pos: Pos,
    locals: &Locals,
    action: Action,
    method: MethodId,
    position: u64,
    number: u64,
    conduct: Conduct,
    heap: &Heap,
    lines: &mut Vec<Entry>,
) -> Result<Heap, NoMemory>
    ensures heap { IfOk result (λ h. h ≡ library_birth p.now locals.now action (method_at p.now method) position number conduct heap.now) }
    ensures lines { OnOk result (lines.new.items ≡ lines.old.items ++ birth_entries p.now pos heap.now (library_birth p.now locals.now action (method_at p.now method) position number conduct heap.now)) }
{
    let mut after = heap.copy(alloc)?;
    library_birth(
        p, locals, action, method, position, number, conduct, &mut after,
    );
    birth_entries(p, pos, heap, &after, lines)?;
    Ok(after)
}

// The heap when the call is noted, its promises are kept, and its reset is done; `number` is that of the object that it makes.
// Puts the lines at the end of the list.
fn library_reset(
    alloc: Global,
    p: &Program,
    pos: Pos,
    locals: &Locals,
    action: Action,
    named: MethodId,
    method: MethodId,
    number: u64,
    conduct: Conduct,
    made: &Heap,
    lines: &mut Vec<Entry>,
) -> Result<Heap, NoMemory>
    ensures heap { IfOk result (λ h. h ≡ reset_roots p.now (reached (noted p.now (library_notes p.now made.now locals.now action (method_at p.now named) (method_at p.now method) number conduct) made.now) (reset_target (positions locals.now action number conduct) (method_at p.now named))) (noted p.now (library_notes p.now made.now locals.now action (method_at p.now named) (method_at p.now method) number conduct) made.now)) }
    ensures lines { OnOk result (lines.new.items ≡ lines.old.items ++ (called_entries p.now pos made.now (noted p.now (library_notes p.now made.now locals.now action (method_at p.now named) (method_at p.now method) number conduct) made.now) ++ reset_entries p.now pos (reached (noted p.now (library_notes p.now made.now locals.now action (method_at p.now named) (method_at p.now method) number conduct) made.now) (reset_target (positions locals.now action number conduct) (method_at p.now named))) (noted p.now (library_notes p.now made.now locals.now action (method_at p.now named) (method_at p.now method) number conduct) made.now))) }
{
    let notes = library_notes(
        alloc, p, made, locals, action, named, method, number, conduct,
    )?;
    let self_made = made_by_new(action, number, conduct);
    let target = reset_target(p, self_made, locals, action, named);
    let reset = note_and_reset(alloc, p, pos, &notes, target, made, lines)?;
    Ok(reset)
}

// The heap when the call has ended. Puts its lines at the end of the list.
fn library_heap(
    alloc: Global,
    p: &Program,
    pos: Pos,
    locals: &Locals,
    action: Action,
    named: MethodId,
    method: MethodId,
    conduct: Conduct,
    position: u64,
    heap: &Heap,
    lines: &mut Vec<Entry>,
) -> Result<Heap, NoMemory>
    ensures heap { IfOk result (λ h. h ≡ library_heap p.now locals.now action (method_at p.now named) (method_at p.now method) conduct position heap.now) }
    ensures lines { OnOk result (lines.new.items ≡ lines.old.items ++ library_entries p.now pos locals.now action (method_at p.now named) (method_at p.now method) conduct position heap.now) }
{
    let number = heap.next_number();
    let moved = arguments_moved(alloc, p, Owner::Library, locals, action, named, heap)?;
    owner_entries(p, pos, heap, &moved, lines)?;
    let made = object_made(alloc, conduct, &moved)?;
    let reset = library_reset(
        alloc, p, pos, locals, action, named, method, number, conduct, &made, lines,
    )?;
    let after = born(
        alloc, p, pos, locals, action, method, position, number, conduct, &reset, lines,
    )?;
    Ok(after)
}

/// What a call of the library leaves, which names a method and goes by the signature of the library's own method, where the
/// caller is at this position. `locals` are the values of the caller, `top` those that it has after the step, and `below` are
/// the frames below it.
pub fn library_effect(
    alloc: Global,
    p: &Program,
    pos: Pos,
    locals: &Locals,
    action: Action,
    named: MethodId,
    method: MethodId,
    conduct: Conduct,
    position: u64,
    heap: &Heap,
    top: &Locals,
    below: &[ActiveFrame],
) -> Result<StepEffect, NoMemory>
    ensures heap { IfOk result (λ e. e.heap ≡ (library_done p.now heap.now locals.now action (method_at p.now named) (method_at p.now method) conduct position pos (held top.now ∷ map held_in (reverse below.now))).heap) }
    ensures lines { IfOk result (λ e. e.lines.items ≡ (library_done p.now heap.now locals.now action (method_at p.now named) (method_at p.now method) conduct position pos (held top.now ∷ map held_in (reverse below.now))).lines) }
{
    let mut lines = Vec::new(alloc);
    let after = library_heap(
        alloc, p, pos, locals, action, named, method, conduct, position, heap, &mut lines,
    )?;
    let effect = left(alloc, p, pos, top, below, &after, lines, Vec::new(alloc))?;
    Ok(effect)
}
