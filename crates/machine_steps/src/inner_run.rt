//! Steps within a frame.

ghost use Rattle.std.specs.Prelude.{◌≡◌, ◌∷◌, ◌<◌, ◌≤◌, length, map, reverse, vec_len, IfOk, IfSome, OnErr, OnOk, false, true};
ghost use Rattle.draft_steps.specs.Steps.{IsDraft};
ghost use Rattle.drafted_heaps.specs.DraftedHeaps.{heap_left};
ghost use Rattle.java_control.specs.Changes.{step_in};
ghost use Rattle.ledger_frames.specs.Frames.{locals_after};
ghost use Rattle.machine_state.specs.Frames.{highest_control};
ghost use Rattle.machine_state.specs.Moves.{Inner};
ghost use Rattle.ledger_obligations.specs.Obligations.{held_in};
ghost use Rattle.machine_state.specs.LedgerRunsOutcomes.{went};
ghost use Rattle.machine_state.specs.LedgerRunsSteps.{moved_by};
ghost use Rattle.ledger_state.specs.Locals.{held};
ghost use Rattle.ledger_steps.specs.InnerSteps.{inner, thrown_value};
ghost use Rattle.machine_state.specs.RunStates.{HasNothingToLose, config_of};
ghost use Rattle.object_index.specs.ObjectIndexes.{Indexed};
ghost use Rattle.draft_steps.specs.Settled.{Settled};

use crate::stores::{room_for, store_results, used_by};
use draft_steps::DraftStep;
use draft_stores::draft_inner;
use drafted_heaps::{
    StepResult, draft_result, index_change, list_change, take_change, whole_result,
};
use java_control::Triple;
use ledger_frames::locals_after;
use ledger_obligations::ActiveFrame;
use ledger_operations::{made_value, next_choice};
use ledger_state::{Heap, Locals, Value};
use ledger_steps::{inner_effect, thrown_value};
use machine_state::{RunState, add_lines, both, put_top};
use object_index::ObjectIndex;
use program_model::{ClassId, Program};
use rlc_base::NoMemory;
use std::alloc::Global;

// What a step within the top frame leaves of the heap, whatever it changes. `locals` are the values of the frame after it.
fn whole_inner(
    alloc: Global,
    p: &Program,
    heap: &Heap,
    locals: &Locals,
    top: &ActiveFrame,
    below: &[ActiveFrame],
    thrown: Option<ClassId>,
    s: Triple,
) -> Result<StepResult, NoMemory>
    ensures heap { IfOk result (λ r. heap_left r.change heap.now ≡ (inner p.now heap.now top.now.method top.now.locals thrown s.action s.pos (held locals.now ∷ map held_in (reverse below.now))).heap) }
    ensures lines { IfOk result (λ r. r.lines.items ≡ (inner p.now heap.now top.now.method top.now.locals thrown s.action s.pos (held locals.now ∷ map held_in (reverse below.now))).lines) }
    ensures settled { IfOk result (λ r. r.settled ≡ false) }
{
    let effect = inner_effect(
        alloc,
        p,
        s.pos,
        top.method,
        &top.locals,
        thrown,
        s.action,
        heap,
        locals,
        below,
    )?;
    Ok(whole_result(effect))
}

// What a step within the top frame changes of the heap, where that is `settled`. `locals` are the values of the frame after it.
fn inner_drafted(
    alloc: Global,
    p: &Program,
    heap: &mut Heap,
    locals: &Locals,
    top: &ActiveFrame,
    below: &[ActiveFrame],
    thrown: Option<ClassId>,
    s: Triple,
    settled: bool,
    index: &ObjectIndex,
) -> Result<Option<DraftStep>, NoMemory>
    requires indexed { settled ≡ true → Indexed index.now heap.old }
    requires settled { settled ≡ true → Settled heap.old (held top.now.locals ∷ map held_in (reverse below.now)) }
    ensures same { heap.new ≡ heap.old }
    ensures draft { IfOk result (λ o. IfSome o (λ d. IsDraft d heap.old (held locals.now ∷ map held_in (reverse below.now)) (inner p.now heap.old top.now.method top.now.locals thrown s.action s.pos (held locals.now ∷ map held_in (reverse below.now))))) }
{
    if !settled {
        return Ok(None);
    }
    draft_inner(
        alloc,
        p,
        s.pos,
        top.method,
        &top.locals,
        thrown,
        s.action,
        heap,
        index,
        locals,
        below,
    )
}

// What a step within the top frame leaves of the heap, in which nothing is left to lose where `settled` says so. `locals` are the values
// of the frame after it.
fn inner_result(
    alloc: Global,
    p: &Program,
    heap: &mut Heap,
    locals: &Locals,
    top: &ActiveFrame,
    below: &[ActiveFrame],
    thrown: Option<ClassId>,
    s: Triple,
    settled: bool,
    index: &ObjectIndex,
) -> Result<StepResult, NoMemory>
    requires indexed { settled ≡ true → Indexed index.now heap.old }
    requires settled { settled ≡ true → Settled heap.old (held top.now.locals ∷ map held_in (reverse below.now)) }
    ensures same { heap.new ≡ heap.old }
    ensures heap { IfOk result (λ r. heap_left r.change heap.old ≡ (inner p.now heap.old top.now.method top.now.locals thrown s.action s.pos (held locals.now ∷ map held_in (reverse below.now))).heap) }
    ensures lines { IfOk result (λ r. r.lines.items ≡ (inner p.now heap.old top.now.method top.now.locals thrown s.action s.pos (held locals.now ∷ map held_in (reverse below.now))).lines) }
    ensures settled { IfOk result (λ r. r.settled ≡ true → Settled (heap_left r.change heap.old) (held locals.now ∷ map held_in (reverse below.now))) }
{
    let found = inner_drafted(
        alloc, p, heap, locals, top, below, thrown, s, settled, index,
    )?;
    match found {
        Some(step) => Ok(draft_result(step)),
        None => whole_inner(alloc, p, heap, locals, top, below, thrown, s),
    }
}

// The values of the top frame after a step within it that makes this value.
fn locals_inner(
    alloc: Global,
    p: &Program,
    heap: &Heap,
    made: Value,
    top: &ActiveFrame,
    thrown: Option<ClassId>,
    s: Triple,
) -> Result<Locals, NoMemory>
    ensures { IfOk result (λ l. l ≡ locals_after p.now heap.now top.now.method top.now.locals s.action s.edge (thrown_value heap.now thrown made)) }
{
    let value = thrown_value(heap, thrown, made);
    locals_after(
        alloc,
        p,
        heap,
        top.method,
        &top.locals,
        s.action,
        s.edge,
        value,
    )
}

/// Takes a step within the top frame, which throws an exception of this class, or none. Where memory runs out all stays.
pub fn run_inner(
    alloc: Global,
    p: &Program,
    m: &mut RunState,
    thrown: Option<ClassId>,
    s: Triple,
) -> Result<(), NoMemory>
    requires running { 0 < vec_len m.old.frames }
    requires bounded { highest_control m.old.frames.items ≤ length m.old.lists.cells.keys }
    requires within { s.to ≤ length m.old.lists.cells.keys }
    requires settled { HasNothingToLose m.old }
    ensures went { OnOk result (went (config_of m.new) ≡ moved_by p.now (config_of m.old) (config_of m.old).frames (Inner thrown (step_in m.old.lists.cells.keys s))) }
    ensures kept { OnErr result (config_of m.new ≡ config_of m.old) }
    ensures bounded { highest_control m.new.frames.items ≤ length m.new.lists.cells.keys }
    ensures settled { HasNothingToLose m.new }
{
    if let Some((top, below)) = m.frames.split_last() {
        let method = top.method;
        let choice = next_choice(&m.choices, m.used);
        let made = made_value(
            p,
            &m.heap,
            &m.arrays,
            &m.statics,
            choice,
            &top.locals,
            s.action,
        );
        let locals = locals_inner(alloc, p, &m.heap, made, top, thrown, s)?;
        let taken = inner_result(
            alloc,
            p,
            &mut m.heap,
            &locals,
            top,
            below,
            thrown,
            s,
            m.settled,
            &m.index,
        )?;
        let used = used_by(&m.arrays, &m.choices, m.used, &top.locals, thrown, s.action);
        let StepResult {
            change,
            lines,
            settled,
        } = taken;
        let array = room_for(
            alloc,
            &mut m.arrays,
            &mut m.statics,
            &mut m.entries,
            &top.locals,
            thrown,
            s.action,
            lines.len(),
        )?;
        let listed = list_change(&mut m.owned, &m.heap, &change, m.settled);
        let indexed = index_change(alloc, &mut m.index, &m.heap, &change, m.settled);
        take_change(&mut m.heap, change)?;
        store_results(
            &mut m.arrays,
            &mut m.statics,
            &top.locals,
            thrown,
            s.action,
            array,
        );
        add_lines(&mut m.entries, &lines);
        m.used = used;
        let known = both(listed, indexed);
        m.settled = both(settled, known);
        put_top(
            &mut m.frames,
            ActiveFrame {
                method,
                control: s.to,
                locals,
            },
        );
    }
    Ok(())
}
