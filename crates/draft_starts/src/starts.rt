//! Starts of calls.

ghost use Rattle.std.specs.Prelude.{◌≡◌, ◌∷◌, None, map, reverse, IfOk, IfSome, OnOk};
ghost use Rattle.draft_steps.specs.Steps.{IsDraft};
ghost use Rattle.heap_drafts.specs.Drafts.{Drafted};
ghost use Rattle.ledger_obligations.specs.Obligations.{held_in};
ghost use Rattle.ledger_state.specs.Locals.{held};
ghost use Rattle.draft_steps.specs.CallSteps.{object_begun, object_of_new, started};
ghost use Rattle.program_model.specs.Lookups.{method_at};
ghost use Rattle.draft_steps.specs.Settled.{Settled};

use control_actions::Action;
use draft_stages::{draft_arguments, draft_end};
use draft_steps::{DraftStep, step_of};
use heap_drafts::{SavedObject, make_object, restore};
use ledger_obligations::ActiveFrame;
use ledger_state::{Entry, Heap, Locals, Owner};
use program_model::{MethodId, Program};
use rlc_base::{NoMemory, Pos};
use std::alloc::Global;

// An object of the method's class is made, which is not finished.
fn begin_object(
    p: &Program,
    named: MethodId,
    heap: &mut Heap,
    saved: &mut Vec<SavedObject>,
) -> Result<(), NoMemory>
    ensures heap { OnOk result (heap.new ≡ object_begun (method_at p.now named) heap.old) }
    ensures drafted { Drafted saved.old.items heap.old saved.new.items heap.new }
{
    match p.method(named) {
        None => Ok(()),
        Some(m) => {
            make_object(heap, m.class, saved)?;
            Ok(())
        }
    }
}

// A `new` of a program's class makes the object, which is not finished.
fn begin(
    p: &Program,
    action: Action,
    named: MethodId,
    heap: &mut Heap,
    saved: &mut Vec<SavedObject>,
) -> Result<(), NoMemory>
    ensures heap { OnOk result (heap.new ≡ object_of_new action (method_at p.now named) heap.old) }
    ensures drafted { Drafted saved.old.items heap.old saved.new.items heap.new }
{
    if let Action::New(_, _, _) = action {
        begin_object(p, named, heap, saved)?;
    }
    Ok(())
}

// The start of the call, done in the heap. The lines of the ledger that it writes.
fn start_in_place(
    alloc: Global,
    p: &Program,
    pos: Pos,
    locals: &Locals,
    action: Action,
    named: MethodId,
    position: u64,
    heap: &mut Heap,
    top: &Locals,
    below: &[ActiveFrame],
    saved: &mut Vec<SavedObject>,
) -> Result<Option<Vec<Entry>>, NoMemory>
    requires { Settled heap.old (map held_in (reverse below.now)) }
    ensures heap { IfOk result (λ o. IfSome o (λ v. heap.new ≡ (started p.now heap.old locals.now action (method_at p.now named) position pos (held top.now ∷ map held_in (reverse below.now))).heap)) }
    ensures lines { IfOk result (λ o. IfSome o (λ v. v.items ≡ (started p.now heap.old locals.now action (method_at p.now named) position pos (held top.now ∷ map held_in (reverse below.now))).lines)) }
    ensures settled { IfOk result (λ o. IfSome o (λ v. Settled heap.new (held top.now ∷ map held_in (reverse below.now)))) }
    ensures drafted { Drafted saved.old.items heap.old saved.new.items heap.new }
{
    let roots = Vec::new(alloc);
    begin(p, action, named, heap, saved)?;
    let mut lines = Vec::new(alloc);
    draft_arguments(
        alloc,
        p,
        pos,
        Owner::Frame(position),
        locals,
        action,
        named,
        heap,
        saved,
        &mut lines,
    )?;
    let leaks = Vec::new(alloc);
    let all = draft_end(alloc, p, pos, top, below, &roots, heap, saved, lines, leaks)?;
    Ok(all)
}

/// What the start of a call changes of the heap, which stays as it is. `locals` are the values of the caller, `top` those of the frame
/// that begins at this position, and `below` are the frames below that one, of which no object is left to lose. None, which no run comes
/// to, where a frame owns an unmet alias.
pub fn draft_start(
    alloc: Global,
    p: &Program,
    pos: Pos,
    locals: &Locals,
    action: Action,
    named: MethodId,
    position: u64,
    heap: &mut Heap,
    top: &Locals,
    below: &[ActiveFrame],
) -> Result<Option<DraftStep>, NoMemory>
    requires { Settled heap.old (map held_in (reverse below.now)) }
    ensures kept { heap.new ≡ heap.old }
    ensures draft { IfOk result (λ o. IfSome o (λ d. IsDraft d heap.old (held top.now ∷ map held_in (reverse below.now)) (started p.now heap.old locals.now action (method_at p.now named) position pos (held top.now ∷ map held_in (reverse below.now))))) }
    ensures stored { IfOk result (λ o. IfSome o (λ d. d.stored ≡ None)) }
{
    let count = heap.objects.len();
    let mut saved = Vec::new(alloc);
    let lines = start_in_place(
        alloc, p, pos, locals, action, named, position, heap, top, below, &mut saved,
    );
    let step = step_of(alloc, heap, count, &saved, lines);
    restore(heap, count, &saved);
    step
}
