//! Frames that end, and the ends of their calls.

ghost use Rattle.std.specs.Prelude.{◌≡◌, ◌+◌, ◌<◌, ◌^◌, ◌∷◌, ◌++◌, map, reverse, IfOk, OnOk};
ghost use Rattle.ledger_calls.specs.Calls.{alias_target, operand_of, receiver_note, reset_target};
ghost use Rattle.ledger_calls.specs.Conducts.{result_in};
ghost use Rattle.ledger_entries.specs.Entries.{leak_entries};
ghost use Rattle.ledger_obligations.specs.Obligations.{end_frame, held_in};
ghost use Rattle.ledger_state.specs.declared.entry.LeakWord.TheVariants as words;
ghost use Rattle.ledger_state.specs.Heaps.{change_one};
ghost use Rattle.ledger_state.specs.Locals.{held};
ghost use Rattle.ledger_state.specs.Values.{number_of};
ghost use Rattle.ledger_steps.specs.Ends.{call_end_entries, call_ended, constructor_ended, finished_by_new, moved_as, moved_normally, object_finished, program_birth, result_moved, returned, self_finished};
ghost use Rattle.program_model.specs.Lookups.{method_at};

use crate::effect::{StepEffect, left};
use crate::notes_and_resets::note_and_reset;
use crate::stores::constructs;
use control_actions::Action;
use ledger_calls::{
    add_receiver_note, alias_target, has_owning_result, is_alias, reset_target, result_of,
};
use ledger_entries::{birth_entries, leak_entries, owner_entries};
use ledger_obligations::{
    ActiveFrame, Note, alias_born, end_frame, end_holder, finished, move_value,
};
use ledger_state::{Entry, Heap, LeakWord, Locals, Object, Owner, Value};
use must_call_sets::must;
use program_model::{ClassId, MethodId, Program};
use rlc_base::{NameSet, NoMemory, Pos};
use std::alloc::Global;

/// A frame that ends.
#[derive(Clone, Copy)]
pub struct FrameEnd {
    /// The place of its end.
    pub pos: Pos,
    pub this: Value,
    /// The method that runs in it.
    pub method: MethodId,
    /// Its result, or the exception by which it ends.
    pub value: Value,
    /// The class of that exception.
    pub thrown: Option<ClassId>,
}

fn move_as(p: &Program, position: u64, method: MethodId, value: Value, heap: &mut Heap)
    ensures { heap.new ≡ moved_as p.now position (result_in (method_at p.now method)) value heap.old }
{
    if let Some(vtype) = result_of(p, method) {
        move_value(p, vtype, Owner::Frame(position), value, heap);
    }
}

fn move_normally(p: &Program, position: u64, method: MethodId, value: Value, heap: &mut Heap)
    ensures { heap.new ≡ moved_normally p.now position (method_at p.now method) value heap.old }
{
    if has_owning_result(p, method) && !is_alias(p, method) {
        move_as(p, position, method, value, heap);
    }
}

// The heap when an owning result that is no alias has moved to the caller's frame, which is at this position.
fn result_moved(
    alloc: Global,
    p: &Program,
    position: u64,
    end: FrameEnd,
    heap: &Heap,
) -> Result<Heap, NoMemory>
    ensures { IfOk result (λ h. h ≡ result_moved p.now position (method_at p.now end.method) end.value end.thrown heap.now) }
{
    let mut after = heap.copy(alloc)?;
    match end.thrown {
        None => move_normally(p, position, end.method, end.value, &mut after),
        Some(_) => {}
    }
    Ok(after)
}

// The heap when the frame at this position has given up what it owns.
fn frame_ended(alloc: Global, position: u64, heap: &Heap) -> Result<Heap, NoMemory>
    ensures { IfOk result (λ h. h ≡ end_frame position heap.now) }
{
    let mut after = heap.copy(alloc)?;
    end_frame(position, &mut after);
    Ok(after)
}

// The heap when a constructor that ends by an exception has given up what the owning fields of its `this` own.
fn constructor_ended(
    alloc: Global,
    p: &Program,
    end: FrameEnd,
    heap: &Heap,
) -> Result<Heap, NoMemory>
    ensures { IfOk result (λ h. h ≡ constructor_ended end.this (method_at p.now end.method) end.thrown heap.now) }
{
    let mut after = heap.copy(alloc)?;
    match end.thrown {
        None => {}
        Some(_) => {
            if constructs(p, end.method) {
                end_holder(end.this.object(), &mut after);
            }
        }
    }
    Ok(after)
}

// The heap when the frame at this position has gone, after its result has moved. Puts its leaks at the end of the list.
fn frame_gone(
    alloc: Global,
    p: &Program,
    position: u64,
    end: FrameEnd,
    moved: &Heap,
    leaks: &mut Vec<Entry>,
) -> Result<Heap, NoMemory>
    ensures heap { IfOk result (λ h. h ≡ constructor_ended end.this (method_at p.now end.method) end.thrown (end_frame position moved.now)) }
    ensures leaks { OnOk result (leaks.new.items ≡ leaks.old.items ++ (leak_entries p.now words.Exit end.pos moved.now (end_frame position moved.now) ++ leak_entries p.now words.ConstructorThrow end.pos (end_frame position moved.now) (constructor_ended end.this (method_at p.now end.method) end.thrown (end_frame position moved.now)))) }
{
    let ended = frame_ended(alloc, position, moved)?;
    leak_entries(p, LeakWord::Exit, end.pos, moved, &ended, leaks)?;
    let gone = constructor_ended(alloc, p, end, &ended)?;
    leak_entries(p, LeakWord::ConstructorThrow, end.pos, &ended, &gone, leaks)?;
    Ok(gone)
}

fn receiver_notes(
    alloc: Global,
    p: &Program,
    locals: &Locals,
    action: Action,
    named: MethodId,
) -> Result<Vec<Note>, NoMemory>
    ensures { IfOk result (λ v. v.items ≡ receiver_note locals.now action (method_at p.now named)) }
{
    let mut notes = Vec::new(alloc);
    add_receiver_note(p, locals, action, named, &mut notes)?;
    Ok(notes)
}

// The object whose obligation the call creates anew.
#[tactic(auto, using(crate::proofs::ParameterLaws::reset_as))]
fn reset_by(p: &Program, locals: &Locals, action: Action, named: MethodId) -> Option<u64>
    ensures { result ≡ reset_target (operand_of locals.now action) (method_at p.now named) }
{
    reset_target(p, None, locals, action, named)
}

// The argument that the object of a `new` is an alias of.
#[tactic(auto, using(crate::proofs::ParameterLaws::alias_as))]
fn alias_by(p: &Program, locals: &Locals, action: Action, named: MethodId) -> Option<u64>
    ensures { result ≡ alias_target (operand_of locals.now action) (method_at p.now named) }
{
    alias_target(p, None, locals, action, named)
}

fn object_finished(
    p: &Program,
    position: u64,
    named: MethodId,
    alias: Option<u64>,
    x: Object,
) -> Object
    ensures { result ≡ object_finished p.now position (method_at p.now named) alias x }
{
    let fresh = Object {
        called: NameSet::empty(),
        ..x
    };
    if is_alias(p, named) {
        alias_born(p, false, alias, fresh)
    } else {
        finished(must(p, x.class), Owner::Frame(position), fresh)
    }
}

#[tactic(auto, using(ledger_obligations::proofs::ChangeLaws::change_absent))]
fn finish_number(
    p: &Program,
    position: u64,
    named: MethodId,
    number: u64,
    alias: Option<u64>,
    heap: &mut Heap,
)
    ensures { heap.new ≡ change_one number (object_finished p.now position (method_at p.now named) alias) heap.old }
{
    if let Some(x) = heap.object(number) {
        heap.put(number, object_finished(p, position, named, alias, x));
    }
}

fn finish_self(
    p: &Program,
    position: u64,
    named: MethodId,
    this: Option<u64>,
    alias: Option<u64>,
    heap: &mut Heap,
)
    ensures { heap.new ≡ self_finished p.now position (method_at p.now named) this alias heap.old }
{
    if let Some(number) = this {
        finish_number(p, position, named, number, alias, heap);
    }
}

fn finish_by_new(
    p: &Program,
    position: u64,
    action: Action,
    named: MethodId,
    this: Option<u64>,
    alias: Option<u64>,
    heap: &mut Heap,
)
    ensures { heap.new ≡ finished_by_new p.now position action (method_at p.now named) this alias heap.old }
{
    if let Action::New(_, _, _) = action {
        finish_self(p, position, named, this, alias, heap);
    }
}

// The heap when the object of a `new` that ends normally is finished.
fn program_birth(
    alloc: Global,
    p: &Program,
    position: u64,
    action: Action,
    named: MethodId,
    alias: Option<u64>,
    end: FrameEnd,
    heap: &Heap,
) -> Result<Heap, NoMemory>
    ensures { IfOk result (λ h. h ≡ program_birth p.now position action (method_at p.now named) (number_of end.this) alias end.thrown heap.now) }
{
    let mut after = heap.copy(alloc)?;
    match end.thrown {
        None => finish_by_new(
            p,
            position,
            action,
            named,
            end.this.object(),
            alias,
            &mut after,
        ),
        Some(_) => {}
    }
    Ok(after)
}

// The heap when the call has ended, after its frame has gone. Puts its lines at the end of the list.
fn call_ended(
    alloc: Global,
    p: &Program,
    pos: Pos,
    position: u64,
    locals: &Locals,
    action: Action,
    named: MethodId,
    end: FrameEnd,
    gone: &Heap,
    lines: &mut Vec<Entry>,
) -> Result<Heap, NoMemory>
    ensures heap { IfOk result (λ h. h ≡ call_ended p.now position end.this locals.now action (method_at p.now named) end.thrown gone.now) }
    ensures lines { OnOk result (lines.new.items ≡ lines.old.items ++ call_end_entries p.now pos position end.this locals.now action (method_at p.now named) end.thrown gone.now) }
{
    let notes = receiver_notes(alloc, p, locals, action, named)?;
    let target = reset_by(p, locals, action, named);
    let reset = note_and_reset(alloc, p, pos, &notes, target, gone, lines)?;
    let alias = alias_by(p, locals, action, named);
    let after = program_birth(alloc, p, position, action, named, alias, end, &reset)?;
    birth_entries(p, pos, &reset, &after, lines)?;
    Ok(after)
}

/// What the end of a frame and of its call leave, where the caller is at this position and its call at `pos`. `locals` are the
/// values of the caller, `top` those that it has after the step, and `below` are the frames below it.
pub fn return_effect(
    alloc: Global,
    p: &Program,
    pos: Pos,
    position: u64,
    locals: &Locals,
    action: Action,
    named: MethodId,
    end: FrameEnd,
    heap: &Heap,
    top: &Locals,
    below: &[ActiveFrame],
) -> Result<StepEffect, NoMemory>
    requires { position + 1 < 2 ^ 64 }
    ensures heap { IfOk result (λ e. e.heap ≡ (returned p.now heap.now position end.this locals.now action (method_at p.now end.method) (method_at p.now named) end.value end.thrown end.pos pos (held top.now ∷ map held_in (reverse below.now))).heap) }
    ensures lines { IfOk result (λ e. e.lines.items ≡ (returned p.now heap.now position end.this locals.now action (method_at p.now end.method) (method_at p.now named) end.value end.thrown end.pos pos (held top.now ∷ map held_in (reverse below.now))).lines) }
{
    let moved = result_moved(alloc, p, position, end, heap)?;
    let mut leaks = Vec::new(alloc);
    let gone = frame_gone(alloc, p, position + 1, end, &moved, &mut leaks)?;
    let mut lines = Vec::new(alloc);
    let after = call_ended(
        alloc, p, pos, position, locals, action, named, end, &gone, &mut lines,
    )?;
    owner_entries(p, pos, heap, &moved, &mut lines)?;
    let effect = left(alloc, p, pos, top, below, &after, lines, leaks)?;
    Ok(effect)
}
