//! Whole returns.

ghost use Rattle.std.specs.Prelude.{◌≡◌, ◌+◌, ◌<◌, ◌^◌, ◌∷◌, ◌++◌, [], None, Some, length, map, reverse, slice_index_or, true, IfOk, IfSome};
ghost use Rattle.draft_returns.specs.DraftReturns.{ListedRest};
ghost use Rattle.draft_stages.specs.Stages.{IndexedRest};
ghost use Rattle.draft_steps.specs.Steps.{IsDraft};
ghost use Rattle.object_index.specs.FrameOwners.{Listed, list_at, lists_in};
ghost use Rattle.heap_drafts.specs.Drafts.{Drafted};
ghost use Rattle.ledger_calls.specs.Calls.{operand_of, receiver_note, reset_target};
ghost use Rattle.ledger_obligations.specs.Obligations.{held_in};
ghost use Rattle.ledger_state.specs.Locals.{held};
ghost use Rattle.ledger_steps.specs.Ends.{call_end_entries, call_ended, returned};
ghost use Rattle.object_index.specs.ObjectIndexes.{Indexed};
ghost use Rattle.program_model.specs.Lookups.{method_at};
ghost use Rattle.draft_steps.specs.Settled.{Settled};

use crate::births::draft_birth;
use crate::frames::draft_frame_gone;
use control_actions::Action;
use draft_stages::{draft_end, draft_reset, held_roots};
use draft_steps::{DraftStep, draft_notes, step_of};
use heap_drafts::{SavedObject, restore};
use ledger_calls::{add_receiver_note, reset_target};
use ledger_obligations::{ActiveFrame, Note};
use ledger_state::{Entry, Heap, Locals};
use ledger_steps::FrameEnd;
use object_index::ObjectIndex;
use program_model::{MethodId, Program};
use rlc_base::{NoMemory, Pos};
use std::alloc::Global;

fn receiver_notes(
    alloc: Global,
    p: &Program,
    locals: &Locals,
    action: Action,
    named: MethodId,
) -> Result<Vec<Note>, NoMemory>
    ensures { IfOk result (λ v. v.items ≡ receiver_note locals.now action (method_at p.now named)) }
{
    let mut notes = Vec::new(alloc);
    add_receiver_note(p, locals, action, named, &mut notes)?;
    Ok(notes)
}

// The object whose obligation the call creates anew.
#[tactic(auto, using(ledger_steps::proofs::ParameterLaws::reset_as))]
fn reset_by(p: &Program, locals: &Locals, action: Action, named: MethodId) -> Option<u64>
    ensures { result ≡ reset_target (operand_of locals.now action) (method_at p.now named) }
{
    reset_target(p, None, locals, action, named)
}

// The call ends when its frame has gone: it is noted on its receiver, its reset is done, and the object of a `new` is finished. Puts the
// lines behind the others. Says whether it was done.
fn draft_call_end(
    alloc: Global,
    p: &Program,
    pos: Pos,
    position: u64,
    locals: &Locals,
    action: Action,
    named: MethodId,
    end: FrameEnd,
    index: &ObjectIndex,
    heap: &mut Heap,
    saved: &mut Vec<SavedObject>,
    lines: &mut Vec<Entry>,
) -> Result<bool, NoMemory>
    requires { IndexedRest index.now saved.old.items heap.old }
    ensures heap { IfOk result (λ b. b ≡ true → heap.new ≡ call_ended p.now position end.this locals.now action (method_at p.now named) end.thrown heap.old) }
    ensures lines { IfOk result (λ b. b ≡ true → lines.new.items ≡ lines.old.items ++ call_end_entries p.now pos position end.this locals.now action (method_at p.now named) end.thrown heap.old) }
    ensures drafted { Drafted saved.old.items heap.old saved.new.items heap.new }
{
    let notes = receiver_notes(alloc, p, locals, action, named)?;
    if !draft_notes(alloc, p, pos, &notes, heap, saved, lines)? {
        return Ok(false);
    }
    let target = reset_by(p, locals, action, named);
    if !draft_reset(alloc, p, pos, target, index, heap, saved, lines)? {
        return Ok(false);
    }
    let done = draft_birth(
        alloc, p, pos, position, locals, action, named, end, heap, saved, lines,
    )?;
    Ok(done)
}

// The return, on the heap itself. The lines, where it was done.
fn return_in_place(
    alloc: Global,
    p: &Program,
    at: Pos,
    position: u64,
    locals: &Locals,
    action: Action,
    named: MethodId,
    end: FrameEnd,
    heap: &mut Heap,
    ended: &Locals,
    now: &Locals,
    below: &[ActiveFrame],
    listed: &[u64],
    index: &ObjectIndex,
    saved: &mut Vec<SavedObject>,
) -> Result<Option<Vec<Entry>>, NoMemory>
    requires small { position + 1 < 2 ^ 64 }
    requires place { position ≡ length below.now + 1 }
    requires settled { Settled heap.old (held ended.now ∷ held locals.now ∷ map held_in (reverse below.now)) }
    requires listed { ListedRest (position + 1) listed.now [] heap.old }
    requires indexed { Indexed index.now heap.old }
    requires saved { saved.old.items ≡ [] }
    ensures heap { IfOk result (λ o. IfSome o (λ v. heap.new ≡ (returned p.now heap.old position end.this locals.now action (method_at p.now end.method) (method_at p.now named) end.value end.thrown end.pos at (held now.now ∷ map held_in (reverse below.now))).heap)) }
    ensures lines { IfOk result (λ o. IfSome o (λ v. v.items ≡ (returned p.now heap.old position end.this locals.now action (method_at p.now end.method) (method_at p.now named) end.value end.thrown end.pos at (held now.now ∷ map held_in (reverse below.now))).lines)) }
    ensures settled { IfOk result (λ o. IfSome o (λ v. Settled heap.new (held now.now ∷ map held_in (reverse below.now)))) }
    ensures drafted { Drafted [] heap.old saved.new.items heap.new }
{
    let roots = held_roots(alloc, heap, locals)?;
    let mut owners = Vec::new(alloc);
    let mut leaks = Vec::new(alloc);
    draft_frame_gone(
        alloc,
        p,
        at,
        position,
        end,
        listed,
        index,
        heap,
        saved,
        &mut owners,
        &mut leaks,
    )?;
    let mut lines = Vec::new(alloc);
    if !draft_call_end(
        alloc, p, at, position, locals, action, named, end, index, heap, saved, &mut lines,
    )? {
        return Ok(None);
    }
    lines.extend_from_slice(&owners)?;
    let all = draft_end(alloc, p, at, now, below, &roots, heap, saved, lines, leaks)?;
    Ok(all)
}

// What the return changes. The heap is left as it was.
fn return_step(
    alloc: Global,
    p: &Program,
    at: Pos,
    position: u64,
    locals: &Locals,
    action: Action,
    named: MethodId,
    end: FrameEnd,
    heap: &mut Heap,
    ended: &Locals,
    now: &Locals,
    below: &[ActiveFrame],
    listed: &[u64],
    index: &ObjectIndex,
) -> Result<Option<DraftStep>, NoMemory>
    requires small { position + 1 < 2 ^ 64 }
    requires place { position ≡ length below.now + 1 }
    requires settled { Settled heap.old (held ended.now ∷ held locals.now ∷ map held_in (reverse below.now)) }
    requires listed { ListedRest (position + 1) listed.now [] heap.old }
    requires indexed { Indexed index.now heap.old }
    ensures kept { heap.new ≡ heap.old }
    ensures draft { IfOk result (λ o. IfSome o (λ d. IsDraft d heap.old (held now.now ∷ map held_in (reverse below.now)) (returned p.now heap.old position end.this locals.now action (method_at p.now end.method) (method_at p.now named) end.value end.thrown end.pos at (held now.now ∷ map held_in (reverse below.now))))) }
    ensures stored { IfOk result (λ o. IfSome o (λ d. d.stored ≡ None)) }
{
    let count = heap.objects.len();
    let mut saved = Vec::new(alloc);
    let lines = return_in_place(
        alloc, p, at, position, locals, action, named, end, heap, ended, now, below, listed, index,
        &mut saved,
    );
    let step = step_of(alloc, heap, count, &saved, lines);
    restore(heap, count, &saved);
    step
}

// A step that makes no object.
fn without_made(found: Option<DraftStep>) -> Option<DraftStep>
    ensures same { IfSome result (λ d. found ≡ Some d) }
    ensures made { IfSome result (λ d. d.made ≡ None) }
{
    match found {
        None => None,
        Some(step) => {
            if step.made.is_some() {
                None
            } else {
                Some(step)
            }
        }
    }
}

// The list of the frame above the caller's, which is at this position.
fn list_above(lists: &[Vec<u64>], position: u64) -> &[u64]
    requires { position + 1 < 2 ^ 64 }
    ensures { result.now ≡ list_at (lists_in lists.now) (position + 1) }
{
    let place = position as usize;
    if place < lists.len() {
        lists[place].as_slice()
    } else {
        &[]
    }
}

/// What the end of a frame and of its call change, where the caller is at this position, its call is at `at`, and its places held
/// `locals` and hold `now`. In the heap as it was no object is left to lose, where the frame that ends held `ended`; the lists have
/// what the frames own, and the index what fields own and what is linked. The heap is left as it was. None, which no run comes to, where
/// an object that is to be finished or of which a note speaks is not there, the one to be finished is an alias already, a frame owns an
/// unmet alias, or links go in circles.
pub fn draft_returned(
    alloc: Global,
    p: &Program,
    at: Pos,
    position: u64,
    locals: &Locals,
    action: Action,
    named: MethodId,
    end: FrameEnd,
    heap: &mut Heap,
    ended: &Locals,
    now: &Locals,
    below: &[ActiveFrame],
    lists: &[Vec<u64>],
    index: &ObjectIndex,
) -> Result<Option<DraftStep>, NoMemory>
    requires small { position + 1 < 2 ^ 64 }
    requires place { position ≡ length below.now + 1 }
    requires settled { Settled heap.old (held ended.now ∷ held locals.now ∷ map held_in (reverse below.now)) }
    requires listed { Listed (lists_in lists.now) heap.old }
    requires indexed { Indexed index.now heap.old }
    ensures kept { heap.new ≡ heap.old }
    ensures draft { IfOk result (λ o. IfSome o (λ d. IsDraft d heap.old (held now.now ∷ map held_in (reverse below.now)) (returned p.now heap.old position end.this locals.now action (method_at p.now end.method) (method_at p.now named) end.value end.thrown end.pos at (held now.now ∷ map held_in (reverse below.now))))) }
    ensures made { IfOk result (λ o. IfSome o (λ d. d.made ≡ None)) }
    ensures stored { IfOk result (λ o. IfSome o (λ d. d.stored ≡ None)) }
{
    let listed = list_above(lists, position);
    let found = return_step(
        alloc, p, at, position, locals, action, named, end, heap, ended, now, below, listed, index,
    )?;
    Ok(without_made(found))
}
