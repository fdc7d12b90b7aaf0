//! Steps that begin calls of the program's methods.

ghost use Rattle.std.specs.Prelude.{◌≡◌, ◌+◌, ◌∷◌, ◌++◌, ◌<◌, ◌≤◌, [], length, map, reverse, vec_capacity, vec_len, IfOk, IfSome, OnErr, OnOk, false, true};
ghost use Rattle.draft_steps.specs.Steps.{IsDraft};
ghost use Rattle.drafted_heaps.specs.DraftedHeaps.{heap_left};
ghost use Rattle.java_control.specs.Tables.{Keeps};
ghost use Rattle.ledger_calls.specs.Calls.{argument_values, begun};
ghost use Rattle.ledger_moves.specs.Frames.{frame_seen, highest_control};
ghost use Rattle.ledger_moves.specs.Moves.{Start};
ghost use Rattle.ledger_obligations.specs.Obligations.{held_in};
ghost use Rattle.machine_state.specs.LedgerRunsOutcomes.{went};
ghost use Rattle.machine_state.specs.LedgerRunsSteps.{moved_by};
ghost use Rattle.ledger_state.specs.Locals.{held};
ghost use Rattle.ledger_steps.specs.CallSteps.{self_begun, started};
ghost use Rattle.machine_state.specs.RunStates.{HasNothingToLose, config_of};
ghost use Rattle.program_model.specs.Lookups.{method_at};
ghost use Rattle.draft_steps.specs.Settled.{Settled};

use draft_starts::draft_start;
use draft_steps::DraftStep;
use drafted_heaps::{
    StepResult, draft_result, index_change, list_change, take_change, whole_result,
};
use frame_owners::add_list;
use java_control::{Action, Lists};
use ledger_calls::argument_values;
use ledger_moves::begin;
use ledger_obligations::ActiveFrame;
use ledger_state::{Heap, Locals};
use ledger_steps::{self_begun, start_effect};
use machine_state::{RunState, add_lines, both};
use program_model::{MethodId, Program};
use rlc_base::{NoMemory, Pos};
use std::alloc::Global;

// What a call of the program's method leaves of the heap, whatever it changes. `locals` are the values of the frame that begins.
fn whole_start(
    alloc: Global,
    p: &Program,
    heap: &Heap,
    top: &ActiveFrame,
    frames: &[ActiveFrame],
    named: MethodId,
    action: Action,
    pos: Pos,
    locals: &Locals,
) -> Result<StepResult, NoMemory>
    ensures heap { IfOk result (λ r. heap_left r.change heap.now ≡ (started p.now heap.now top.now.locals action (method_at p.now named) (length frames.now + 1) pos (held locals.now ∷ map held_in (reverse frames.now))).heap) }
    ensures lines { IfOk result (λ r. r.lines.items ≡ (started p.now heap.now top.now.locals action (method_at p.now named) (length frames.now + 1) pos (held locals.now ∷ map held_in (reverse frames.now))).lines) }
    ensures settled { IfOk result (λ r. r.settled ≡ false) }
{
    let position = frames.len() as u64 + 1;
    let effect = start_effect(
        alloc,
        p,
        pos,
        &top.locals,
        action,
        named,
        position,
        heap,
        locals,
        frames,
    )?;
    Ok(whole_result(effect))
}

// What a call of the program's method changes of the heap, where that is `settled`. `locals` are the values of the frame that begins.
fn start_drafted(
    alloc: Global,
    p: &Program,
    heap: &mut Heap,
    top: &ActiveFrame,
    frames: &[ActiveFrame],
    named: MethodId,
    action: Action,
    pos: Pos,
    locals: &Locals,
    settled: bool,
) -> Result<Option<DraftStep>, NoMemory>
    requires settled { settled ≡ true → Settled heap.old (map held_in (reverse frames.now)) }
    ensures same { heap.new ≡ heap.old }
    ensures draft { IfOk result (λ o. IfSome o (λ d. IsDraft d heap.old (held locals.now ∷ map held_in (reverse frames.now)) (started p.now heap.old top.now.locals action (method_at p.now named) (length frames.now + 1) pos (held locals.now ∷ map held_in (reverse frames.now))))) }
{
    if !settled {
        return Ok(None);
    }
    let position = frames.len() as u64 + 1;
    draft_start(
        alloc,
        p,
        pos,
        &top.locals,
        action,
        named,
        position,
        heap,
        locals,
        frames,
    )
}

// What a call of the program's method leaves of the heap, in which nothing is left to lose where `settled` says so. `locals` are the
// values of the frame that begins.
fn start_result(
    alloc: Global,
    p: &Program,
    heap: &mut Heap,
    top: &ActiveFrame,
    frames: &[ActiveFrame],
    named: MethodId,
    action: Action,
    pos: Pos,
    locals: &Locals,
    settled: bool,
) -> Result<StepResult, NoMemory>
    requires settled { settled ≡ true → Settled heap.old (map held_in (reverse frames.now)) }
    ensures same { heap.new ≡ heap.old }
    ensures heap { IfOk result (λ r. heap_left r.change heap.old ≡ (started p.now heap.old top.now.locals action (method_at p.now named) (length frames.now + 1) pos (held locals.now ∷ map held_in (reverse frames.now))).heap) }
    ensures lines { IfOk result (λ r. r.lines.items ≡ (started p.now heap.old top.now.locals action (method_at p.now named) (length frames.now + 1) pos (held locals.now ∷ map held_in (reverse frames.now))).lines) }
    ensures settled { IfOk result (λ r. r.settled ≡ true → Settled (heap_left r.change heap.old) (held locals.now ∷ map held_in (reverse frames.now))) }
{
    let found = start_drafted(
        alloc, p, heap, top, frames, named, action, pos, locals, settled,
    )?;
    match found {
        Some(step) => Ok(draft_result(step)),
        None => whole_start(alloc, p, heap, top, frames, named, action, pos, locals),
    }
}

// The frame that a call begins.
fn start_frame(
    alloc: Global,
    p: &Program,
    lists: &mut Lists,
    heap: &Heap,
    top: &ActiveFrame,
    named: MethodId,
    runs: MethodId,
    action: Action,
) -> Result<ActiveFrame, NoMemory>
    ensures frame { IfOk result (λ fr. frame_seen lists.new.cells.keys fr ≡ begun p.now runs (self_begun top.now.locals action heap.now) (argument_values top.now.locals action (method_at p.now named))) }
    ensures within { IfOk result (λ fr. fr.control ≤ length lists.new.cells.keys) }
    ensures kept { Keeps lists.old.cells.keys lists.new.cells.keys }
{
    let this = self_begun(&top.locals, action, heap);
    let arguments = argument_values(alloc, p, &top.locals, action, named)?;
    let frame = begin(alloc, p, lists, runs, this, arguments)?;
    Ok(frame)
}

// The frame stands on top of the others; there is room for it.
fn add_frame(frames: &mut Vec<ActiveFrame>, frame: ActiveFrame)
    requires { vec_len frames.old < vec_capacity frames.old }
    ensures { frames.new.items ≡ frames.old.items ++ frame ∷ [] }
{
    match frames.push(frame) {
        Ok(()) => {}
        Err(_) => {}
    }
}

/// Begins a call of the program's method. Where memory runs out all stays.
pub fn run_start(
    alloc: Global,
    p: &Program,
    m: &mut RunState,
    named: MethodId,
    runs: MethodId,
    action: Action,
    pos: Pos,
) -> Result<(), NoMemory>
    requires running { 0 < vec_len m.old.frames }
    requires bounded { highest_control m.old.frames.items ≤ length m.old.lists.cells.keys }
    requires settled { HasNothingToLose m.old }
    ensures went { OnOk result (went (config_of m.new) ≡ moved_by p.now (config_of m.old) (config_of m.old).frames (Start named runs action pos)) }
    ensures kept { OnErr result (config_of m.new ≡ config_of m.old) }
    ensures bounded { highest_control m.new.frames.items ≤ length m.new.lists.cells.keys }
    ensures settled { HasNothingToLose m.new }
{
    m.frames.reserve(1)?;
    if let Some((top, _below)) = m.frames.split_last() {
        let frame = start_frame(alloc, p, &mut m.lists, &m.heap, top, named, runs, action)?;
        let started = start_result(
            alloc,
            p,
            &mut m.heap,
            top,
            &m.frames,
            named,
            action,
            pos,
            &frame.locals,
            m.settled,
        )?;
        let StepResult {
            change,
            lines,
            settled,
        } = started;
        m.entries.reserve(lines.len())?;
        add_list(alloc, &mut m.owned)?;
        let listed = list_change(&mut m.owned, &m.heap, &change, m.settled);
        let indexed = index_change(alloc, &mut m.index, &m.heap, &change, m.settled);
        take_change(&mut m.heap, change)?;
        add_lines(&mut m.entries, &lines);
        let known = both(listed, indexed);
        m.settled = both(settled, known);
        add_frame(&mut m.frames, frame);
    }
    Ok(())
}
