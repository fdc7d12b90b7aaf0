//! Steps that end frames.

ghost use Rattle.std.specs.Prelude.{◌≡◌, ◌+◌, ◌-◌, ◌∷◌, ◌++◌, ◌<◌, ◌≤◌, List, length, map, reverse, take, vec_len, IfOk, IfSome, OnErr, OnOk, false, true};
ghost use Rattle.draft_steps.specs.Steps.{IsDraft};
ghost use Rattle.drafted_heaps.specs.DraftedHeaps.{heap_left};
ghost use Rattle.java_control.specs.Changes.{step_in};
ghost use Rattle.ledger_calls.specs.Configuration.{Frame};
ghost use Rattle.ledger_frames.specs.Choosing.{frame_steps};
ghost use Rattle.machine_state.specs.RunStates.{HasNothingToLose, config_of};
ghost use Rattle.ledger_moves.specs.Frames.{control_back, highest_control, return_seen};
ghost use Rattle.ledger_moves.specs.Moves.{End, return_move};
ghost use Rattle.machine_state.specs.LedgerRunsOutcomes.{went};
ghost use Rattle.machine_state.specs.LedgerRunsSteps.{moved_by, returned};
ghost use Rattle.ledger_obligations.specs.Obligations.{held_in};
ghost use Rattle.ledger_state.specs.Locals.{held};
ghost use Rattle.ledger_steps.specs.Ends.{exception_class, thrown_in};
ghost use Rattle.ledger_steps.specs.Ends as ends;
ghost use Rattle.frame_owners.specs.FrameOwners.{Listed, lists_in};
ghost use Rattle.object_index.specs.ObjectIndexes.{Indexed};
ghost use Rattle.draft_steps.specs.Settled.{Settled};
ghost use Rattle.program_model.specs.Lookups.{method_at};

use draft_returns::draft_returned;
use draft_steps::DraftStep;
use drafted_heaps::{
    StepResult, draft_result, end_top_list, index_change, list_change, take_change, whole_result,
};
use java_control::{Completion, Triple};
use ledger_frames::locals_after;
use ledger_moves::{CallEnd, call_end};
use ledger_obligations::ActiveFrame;
use ledger_state::{Entry, Heap, Locals};
use ledger_steps::{
    FrameEnd, StepEffect, answered, exception_class, main_effect, result_value, return_effect,
};
use machine_state::{RunState, add_lines, both, put_top};
use object_index::ObjectIndex;
use program_model::{ClassId, MethodId, Program};
use rlc_base::{NoMemory, Pos};
use std::alloc::Global;

// What the end of the top frame and of its call leave of the heap, whatever they change. `locals` are the values of the caller after it.
fn whole_return(
    alloc: Global,
    p: &Program,
    heap: &Heap,
    end: FrameEnd,
    caller: &ActiveFrame,
    below: &[ActiveFrame],
    named: MethodId,
    t: Triple,
    locals: &Locals,
) -> Result<StepResult, NoMemory>
    ensures heap { IfOk result (λ r. heap_left r.change heap.now ≡ (ends.returned p.now heap.now (length below.now + 1) end.this caller.now.locals t.action (method_at p.now end.method) (method_at p.now named) end.value end.thrown end.pos t.pos (held locals.now ∷ map held_in (reverse below.now))).heap) }
    ensures lines { IfOk result (λ r. r.lines.items ≡ (ends.returned p.now heap.now (length below.now + 1) end.this caller.now.locals t.action (method_at p.now end.method) (method_at p.now named) end.value end.thrown end.pos t.pos (held locals.now ∷ map held_in (reverse below.now))).lines) }
    ensures settled { IfOk result (λ r. r.settled ≡ false) }
{
    let position = below.len() as u64 + 1;
    let effect = return_effect(
        alloc,
        p,
        t.pos,
        position,
        &caller.locals,
        t.action,
        named,
        end,
        heap,
        locals,
        below,
    )?;
    Ok(whole_result(effect))
}

// What the end of the top frame and of its call change of the heap, where that is `settled`. `locals` are the values of the caller after
// it, and `ended` those of the frame that ends.
fn return_drafted(
    alloc: Global,
    p: &Program,
    heap: &mut Heap,
    end: FrameEnd,
    ended: &Locals,
    caller: &ActiveFrame,
    below: &[ActiveFrame],
    named: MethodId,
    t: Triple,
    locals: &Locals,
    settled: bool,
    lists: &[Vec<u64>],
    index: &ObjectIndex,
) -> Result<Option<DraftStep>, NoMemory>
    requires indexed { settled ≡ true → Indexed index.now heap.old }
    requires listed { settled ≡ true → Listed (lists_in lists.now) heap.old }
    requires settled { settled ≡ true → Settled heap.old (held ended.now ∷ held caller.now.locals ∷ map held_in (reverse below.now)) }
    ensures same { heap.new ≡ heap.old }
    ensures draft { IfOk result (λ o. IfSome o (λ d. IsDraft d heap.old (held locals.now ∷ map held_in (reverse below.now)) (ends.returned p.now heap.old (length below.now + 1) end.this caller.now.locals t.action (method_at p.now end.method) (method_at p.now named) end.value end.thrown end.pos t.pos (held locals.now ∷ map held_in (reverse below.now))))) }
{
    if !settled {
        return Ok(None);
    }
    let position = below.len() as u64 + 1;
    draft_returned(
        alloc,
        p,
        t.pos,
        position,
        &caller.locals,
        t.action,
        named,
        end,
        heap,
        ended,
        locals,
        below,
        lists,
        index,
    )
}

// What the end of the top frame, which held `ended`, and of its call leave of the heap, in which nothing is left to lose where `settled`
// says so. `locals` are the values of the caller after it.
fn return_result(
    alloc: Global,
    p: &Program,
    heap: &mut Heap,
    end: FrameEnd,
    ended: &Locals,
    caller: &ActiveFrame,
    below: &[ActiveFrame],
    named: MethodId,
    t: Triple,
    locals: &Locals,
    settled: bool,
    lists: &[Vec<u64>],
    index: &ObjectIndex,
) -> Result<StepResult, NoMemory>
    requires indexed { settled ≡ true → Indexed index.now heap.old }
    requires listed { settled ≡ true → Listed (lists_in lists.now) heap.old }
    requires settled { settled ≡ true → Settled heap.old (held ended.now ∷ held caller.now.locals ∷ map held_in (reverse below.now)) }
    ensures same { heap.new ≡ heap.old }
    ensures heap { IfOk result (λ r. heap_left r.change heap.old ≡ (ends.returned p.now heap.old (length below.now + 1) end.this caller.now.locals t.action (method_at p.now end.method) (method_at p.now named) end.value end.thrown end.pos t.pos (held locals.now ∷ map held_in (reverse below.now))).heap) }
    ensures lines { IfOk result (λ r. r.lines.items ≡ (ends.returned p.now heap.old (length below.now + 1) end.this caller.now.locals t.action (method_at p.now end.method) (method_at p.now named) end.value end.thrown end.pos t.pos (held locals.now ∷ map held_in (reverse below.now))).lines) }
    ensures settled { IfOk result (λ r. r.settled ≡ true → Settled (heap_left r.change heap.old) (held locals.now ∷ map held_in (reverse below.now))) }
{
    let found = return_drafted(
        alloc, p, heap, end, ended, caller, below, named, t, locals, settled, lists, index,
    )?;
    match found {
        Some(step) => Ok(draft_result(step)),
        None => whole_return(alloc, p, heap, end, caller, below, named, t, locals),
    }
}

// The top frame is no more.
fn drop_top(frames: &mut Vec<ActiveFrame>)
    ensures items { frames.new.items ≡ take (vec_len frames.old - 1) frames.old.items }
    ensures count { vec_len frames.new ≡ vec_len frames.old - 1 }
{
    let _gone = frames.pop();
}

/// Ends the frame, where its caller takes the step of its call. Where memory runs out all stays.
pub fn run_return(
    alloc: Global,
    p: &Program,
    m: &mut RunState,
    pos: Pos,
    completion: Completion,
    thrown: Option<ClassId>,
    named: MethodId,
    t: Triple,
) -> Result<(), NoMemory>
    requires running { 1 < vec_len m.old.frames }
    requires bounded { highest_control m.old.frames.items ≤ length m.old.lists.cells.keys }
    requires settled { HasNothingToLose m.old }
    requires within { t.to ≤ length m.old.lists.cells.keys }
    ensures went { (fr caller : Frame) (frs : List Frame) → (config_of m.old).frames ≡ fr ∷ caller ∷ frs → OnOk result (config_of m.new ≡ returned p.now (config_of m.old) fr caller frs pos completion thrown named (step_in m.old.lists.cells.keys t)) }
    ensures kept { OnErr result (config_of m.new ≡ config_of m.old) }
    ensures bounded { highest_control m.new.frames.items ≤ length m.new.lists.cells.keys }
    ensures settled { HasNothingToLose m.new }
{
    if let Some((top, others)) = m.frames.split_last() {
        if let Some((caller, below)) = others.split_last() {
            let method = caller.method;
            let value = result_value(p, &top.locals, top.method, completion);
            let end = FrameEnd {
                pos,
                this: top.locals.this,
                method: top.method,
                value,
                thrown,
            };
            let answer = answered(end.this, t.action, end.value, end.thrown);
            let locals = locals_after(
                alloc,
                p,
                &m.heap,
                method,
                &caller.locals,
                t.action,
                t.edge,
                answer,
            )?;
            let taken = return_result(
                alloc,
                p,
                &mut m.heap,
                end,
                &top.locals,
                caller,
                below,
                named,
                t,
                &locals,
                m.settled,
                &m.owned,
                &m.index,
            )?;
            let StepResult {
                change,
                lines,
                settled,
            } = taken;
            m.entries.reserve(lines.len())?;
            let listed = list_change(&mut m.owned, &m.heap, &change, m.settled);
            let indexed = index_change(alloc, &mut m.index, &m.heap, &change, m.settled);
            take_change(&mut m.heap, change)?;
            let ended = end_top_list(&m.heap, &mut m.owned, listed);
            add_lines(&mut m.entries, &lines);
            let known = both(ended, indexed);
            m.settled = both(settled, known);
            drop_top(&mut m.frames);
            put_top(
                &mut m.frames,
                ActiveFrame {
                    method,
                    control: t.to,
                    locals,
                },
            );
        }
    }
    Ok(())
}

// Appends the lines of a step to the ledger. Where memory runs out the ledger stays.
fn append_lines(entries: &mut Vec<Entry>, lines: &[Entry]) -> Result<(), NoMemory>
    ensures entries { OnOk result (entries.new.items ≡ entries.old.items ++ lines.now) }
    ensures kept { OnErr result (entries.new.items ≡ entries.old.items) }
{
    Ok(entries.extend_from_slice(lines)?)
}

/// Ends the frame of `main`. Where memory runs out all stays.
pub fn run_main_end(
    alloc: Global,
    p: &Program,
    m: &mut RunState,
    pos: Pos,
    completion: Completion,
) -> Result<(), NoMemory>
    requires alone { vec_len m.old.frames ≡ 1 }
    requires bounded { highest_control m.old.frames.items ≤ length m.old.lists.cells.keys }
    requires settled { HasNothingToLose m.old }
    ensures went { OnOk result (went (config_of m.new) ≡ moved_by p.now (config_of m.old) (config_of m.old).frames (End pos completion)) }
    ensures kept { OnErr result (config_of m.new ≡ config_of m.old) }
    ensures bounded { highest_control m.new.frames.items ≤ length m.new.lists.cells.keys }
    ensures settled { HasNothingToLose m.new }
{
    if let Some((top, _below)) = m.frames.split_last() {
        let effect = main_effect(alloc, p, pos, &m.heap)?;
        let ended = exception_class(p, &m.heap, &top.locals, completion);
        append_lines(&mut m.entries, &effect.lines)?;
        let StepEffect { heap, lines } = effect;
        m.heap = heap;
        m.settled = false;
        m.ended = ended;
        m.frames.clear();
    }
    Ok(())
}

/// What the caller of the top frame does when that ends. All stays but the table of lists, which grows.
pub fn run_call_end(
    alloc: Global,
    p: &Program,
    m: &mut RunState,
    pos: Pos,
    completion: Completion,
) -> Result<CallEnd, NoMemory>
    requires running { 1 < vec_len m.old.frames }
    requires bounded { highest_control m.old.frames.items ≤ length m.old.lists.cells.keys }
    requires settled { HasNothingToLose m.old }
    ensures seen { (fr caller : Frame) (frs : List Frame) → (config_of m.old).frames ≡ fr ∷ caller ∷ frs → IfOk result (λ e. return_seen m.new.lists.cells.keys e ≡ return_move p.now (frame_steps p.now caller) (exception_class p.now m.old.heap (thrown_in fr.locals completion))) }
    ensures within { IfOk result (λ e. control_back e ≤ length m.new.lists.cells.keys) }
    ensures kept { config_of m.new ≡ config_of m.old }
    ensures count { vec_len m.new.frames ≡ vec_len m.old.frames }
    ensures bounded { highest_control m.new.frames.items ≤ length m.new.lists.cells.keys }
    ensures settled { HasNothingToLose m.new }
{
    match m.frames.split_last() {
        None => Ok(CallEnd::NoWay),
        Some((top, others)) => match others.split_last() {
            None => Ok(CallEnd::NoWay),
            Some((caller, _below)) => {
                let thrown = exception_class(p, &m.heap, &top.locals, completion);
                let end = call_end(alloc, &mut m.lists, p, caller, thrown)?;
                Ok(end)
            }
        },
    }
}
