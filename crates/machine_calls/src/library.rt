//! Steps that call the library.

ghost use Rattle.std.specs.Prelude.{◌≡◌, ◌+◌, ◌∷◌, ◌++◌, ◌<◌, ◌≤◌, List, length, map, reverse, vec_capacity, vec_len, IfOk, IfSome, OnErr, OnOk, false, true};
ghost use Rattle.draft_steps.specs.Steps.{IsDraft};
ghost use Rattle.drafted_heaps.specs.DraftedHeaps.{heap_left};
ghost use Rattle.java_control.specs.Changes.{step_in};
ghost use Rattle.ledger_calls.specs.Conducts.{arguments_shared, arrays_given, conduct_value, result_in};
ghost use Rattle.ledger_moves.specs.Frames.{highest_control};
ghost use Rattle.ledger_moves.specs.Moves.{Library};
ghost use Rattle.ledger_obligations.specs.Obligations.{held_in};
ghost use Rattle.machine_state.specs.LedgerRunsOutcomes.{went};
ghost use Rattle.machine_state.specs.LedgerRunsSteps.{moved_by};
ghost use Rattle.ledger_state.specs.declared.array.ArrayObject.{ArrayObject};
ghost use Rattle.ledger_state.specs.Locals.{held};
ghost use Rattle.ledger_steps.specs.CallSteps.{library_done};
ghost use Rattle.machine_state.specs.RunStates.{HasNothingToLose, config_of};
ghost use Rattle.program_model.specs.Lookups.{method_at, optional};
ghost use Rattle.object_index.specs.ObjectIndexes.{Indexed};
ghost use Rattle.draft_steps.specs.Settled.{Settled};

use draft_calls::{LibraryCall, draft_library};
use draft_steps::DraftStep;
use drafted_heaps::{
    StepResult, draft_result, index_change, list_change, take_change, whole_result,
};
use java_control::{Action, Triple};
use ledger_calls::{conduct_value, result_of, share_arguments};
use ledger_frames::locals_after;
use ledger_obligations::ActiveFrame;
use ledger_operations::one_more_used;
use ledger_state::{ArrayObject, Heap, Locals, library_array};
use ledger_steps::library_effect;
use machine_state::{RunState, add_array, add_lines, both, put_top};
use object_index::ObjectIndex;
use program_model::{MethodId, Program, VType};
use rlc_base::NoMemory;
use std::alloc::Global;
use stub_conduct::Conduct;

// What a call of the library leaves of the heap, whatever it changes. `locals` are the values of the caller after it.
fn whole_library(
    alloc: Global,
    p: &Program,
    heap: &Heap,
    top: &ActiveFrame,
    below: &[ActiveFrame],
    named: MethodId,
    method: MethodId,
    conduct: Conduct,
    s: Triple,
    locals: &Locals,
) -> Result<StepResult, NoMemory>
    ensures heap { IfOk result (λ r. heap_left r.change heap.now ≡ (library_done p.now heap.now top.now.locals s.action (method_at p.now named) (method_at p.now method) conduct (length below.now + 1) s.pos (held locals.now ∷ map held_in (reverse below.now))).heap) }
    ensures lines { IfOk result (λ r. r.lines.items ≡ (library_done p.now heap.now top.now.locals s.action (method_at p.now named) (method_at p.now method) conduct (length below.now + 1) s.pos (held locals.now ∷ map held_in (reverse below.now))).lines) }
    ensures settled { IfOk result (λ r. r.settled ≡ false) }
{
    let position = below.len() as u64 + 1;
    let effect = library_effect(
        alloc,
        p,
        s.pos,
        &top.locals,
        s.action,
        named,
        method,
        conduct,
        position,
        heap,
        locals,
        below,
    )?;
    Ok(whole_result(effect))
}

// What a call of the library changes of the heap, where that is `settled`. `locals` are the values of the caller after it.
fn library_drafted(
    alloc: Global,
    p: &Program,
    heap: &mut Heap,
    top: &ActiveFrame,
    below: &[ActiveFrame],
    named: MethodId,
    method: MethodId,
    conduct: Conduct,
    s: Triple,
    locals: &Locals,
    settled: bool,
    index: &ObjectIndex,
) -> Result<Option<DraftStep>, NoMemory>
    requires indexed { settled ≡ true → Indexed index.now heap.old }
    requires settled { settled ≡ true → Settled heap.old (held top.now.locals ∷ map held_in (reverse below.now)) }
    ensures same { heap.new ≡ heap.old }
    ensures draft { IfOk result (λ o. IfSome o (λ d. IsDraft d heap.old (held locals.now ∷ map held_in (reverse below.now)) (library_done p.now heap.old top.now.locals s.action (method_at p.now named) (method_at p.now method) conduct (length below.now + 1) s.pos (held locals.now ∷ map held_in (reverse below.now))))) }
{
    if !settled {
        return Ok(None);
    }
    let call = LibraryCall {
        pos: s.pos,
        action: s.action,
        named,
        method,
        conduct,
        position: below.len() as u64 + 1,
    };
    draft_library(alloc, p, &top.locals, call, heap, index, locals, below)
}

// What a call of the library leaves of the heap, in which nothing is left to lose where `settled` says so. `locals` are the values of the
// caller after it.
fn library_result(
    alloc: Global,
    p: &Program,
    heap: &mut Heap,
    top: &ActiveFrame,
    below: &[ActiveFrame],
    named: MethodId,
    method: MethodId,
    conduct: Conduct,
    s: Triple,
    locals: &Locals,
    settled: bool,
    index: &ObjectIndex,
) -> Result<StepResult, NoMemory>
    requires indexed { settled ≡ true → Indexed index.now heap.old }
    requires settled { settled ≡ true → Settled heap.old (held top.now.locals ∷ map held_in (reverse below.now)) }
    ensures same { heap.new ≡ heap.old }
    ensures heap { IfOk result (λ r. heap_left r.change heap.old ≡ (library_done p.now heap.old top.now.locals s.action (method_at p.now named) (method_at p.now method) conduct (length below.now + 1) s.pos (held locals.now ∷ map held_in (reverse below.now))).heap) }
    ensures lines { IfOk result (λ r. r.lines.items ≡ (library_done p.now heap.old top.now.locals s.action (method_at p.now named) (method_at p.now method) conduct (length below.now + 1) s.pos (held locals.now ∷ map held_in (reverse below.now))).lines) }
    ensures settled { IfOk result (λ r. r.settled ≡ true → Settled (heap_left r.change heap.old) (held locals.now ∷ map held_in (reverse below.now))) }
{
    let found = library_drafted(
        alloc, p, heap, top, below, named, method, conduct, s, locals, settled, index,
    )?;
    match found {
        Some(step) => Ok(draft_result(step)),
        None => whole_library(
            alloc, p, heap, top, below, named, method, conduct, s, locals,
        ),
    }
}

// The array that the library gives, where its result is one.
fn given_array(alloc: Global, vtype: Option<VType>, conduct: Conduct) -> Option<ArrayObject>
    ensures { (arrays : List ArrayObject) → arrays_given arrays vtype conduct ≡ arrays ++ optional result }
{
    match (conduct, vtype) {
        (Conduct::Value(length), Some(VType::Arr(element))) => {
            Some(library_array(alloc, element, length))
        }
        _ => None,
    }
}

// The arrays that a call of the library takes become shared, and the one that it gives stands behind the others; there is room
// for it.
fn give_arrays(
    alloc: Global,
    p: &Program,
    arrays: &mut Vec<ArrayObject>,
    locals: &Locals,
    action: Action,
    named: MethodId,
    method: MethodId,
    conduct: Conduct,
)
    requires { vec_len arrays.old < vec_capacity arrays.old }
    ensures { arrays.new.items ≡ arrays_given (arguments_shared arrays.old.items locals.now action (method_at p.now named)) (result_in (method_at p.now method)) conduct }
{
    share_arguments(p, locals, action, named, arrays);
    let given = given_array(alloc, result_of(p, method), conduct);
    add_array(arrays, given);
}

/// Takes a call of the library. Where memory runs out all stays.
pub fn run_library(
    alloc: Global,
    p: &Program,
    m: &mut RunState,
    named: MethodId,
    method: MethodId,
    conduct: Conduct,
    s: Triple,
) -> Result<(), NoMemory>
    requires running { 0 < vec_len m.old.frames }
    requires bounded { highest_control m.old.frames.items ≤ length m.old.lists.cells.keys }
    requires within { s.to ≤ length m.old.lists.cells.keys }
    requires settled { HasNothingToLose m.old }
    ensures went { OnOk result (went (config_of m.new) ≡ moved_by p.now (config_of m.old) (config_of m.old).frames (Library named method conduct (step_in m.old.lists.cells.keys s))) }
    ensures kept { OnErr result (config_of m.new ≡ config_of m.old) }
    ensures bounded { highest_control m.new.frames.items ≤ length m.new.lists.cells.keys }
    ensures settled { HasNothingToLose m.new }
{
    m.arrays.reserve(1)?;
    if let Some((top, below)) = m.frames.split_last() {
        let runs = top.method;
        let number = m.heap.next_number();
        let count = m.arrays.len();
        let value = conduct_value(p, count, method, &top.locals, s.action, number, conduct);
        let locals = locals_after(
            alloc,
            p,
            &m.heap,
            runs,
            &top.locals,
            s.action,
            s.edge,
            value,
        )?;
        let taken = library_result(
            alloc,
            p,
            &mut m.heap,
            top,
            below,
            named,
            method,
            conduct,
            s,
            &locals,
            m.settled,
            &m.index,
        )?;
        let StepResult {
            change,
            lines,
            settled,
        } = taken;
        m.entries.reserve(lines.len())?;
        let listed = list_change(&mut m.owned, &m.heap, &change, m.settled);
        let indexed = index_change(alloc, &mut m.index, &m.heap, &change, m.settled);
        take_change(&mut m.heap, change)?;
        add_lines(&mut m.entries, &lines);
        give_arrays(
            alloc,
            p,
            &mut m.arrays,
            &top.locals,
            s.action,
            named,
            method,
            conduct,
        );
        m.used = one_more_used(&m.choices, m.used);
        let known = both(listed, indexed);
        m.settled = both(settled, known);
        put_top(
            &mut m.frames,
            ActiveFrame {
                method: runs,
                control: s.to,
                locals,
            },
        );
    }
    Ok(())
}
