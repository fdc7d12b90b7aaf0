//! What comes next in a frame.

ghost use Rattle.std.specs.Prelude.{◌≡◌, ◌≤◌, List, length, map, slice_get, IfOk, IfSome};
ghost use Rattle.std.specs.Option.{option_map};
ghost use Rattle.java_control.specs.Changes.{highest_steps, step_in};
ghost use Rattle.control_actions.specs.declared.cell.Cell.{Cell};
ghost use Rattle.java_control.specs.Remaining.{todos};
ghost use Rattle.java_control.specs.Tables.{Keeps, list_at};
ghost use Rattle.ledger_frames.specs.Choosing.{frame_steps};
ghost use Rattle.ledger_moves.specs.Frames.{control_left, frame_seen, move_seen};
ghost use Rattle.ledger_moves.specs.Moves.{chosen_of, next_move, operate, standing, take, take_chosen, take_plain};

use crate::advance::Advance;
use crate::calls::{call, library_call};
use crate::frames::frame_steps;
use crate::standing::{FirstAction, first_action};
use java_control::{Action, Lists, PlainValue, Triple};
use ledger_frames::{chosen, thrown_by_operation};
use ledger_obligations::ActiveFrame;
use ledger_state::{ArrayObject, Heap, Locals};
use program_model::{ClassId, MethodId, Program, is_ignored};
use rlc_base::{NoMemory, Pos};
use std::alloc::Global;
use stub_conduct::Choice;

#[tactic(auto, unfolding(crate::specs::Moves::take_plain))]
fn take_plain(
    p: &Program,
    heap: &Heap,
    arrays: &[ArrayObject],
    choice: Choice,
    locals: &Locals,
    steps: &[Triple],
    s: Triple,
    value: PlainValue,
) -> Advance
    requires { s.to ≤ highest_steps steps.now }
    ensures seen { (cells : List Cell) → move_seen cells result ≡ take_plain p.now heap.now arrays.now choice locals.now (map (step_in cells) steps.now) (step_in cells s) value }
    ensures within { control_left result ≤ highest_steps steps.now }
{
    match value {
        PlainValue::LibraryConstant(m) => {
            library_call(
                p, heap, arrays, choice, locals, steps, s.action, s.pos, m, m,
            )
        }
        PlainValue::Literal(_) | PlainValue::Default(_) | PlainValue::StaticField(_) => {
            Advance::Inner(None, s)
        }
    }
}

// The step is taken; the operation throws an exception of this class, or none.
#[tactic(auto, unfolding(crate::specs::Moves::take))]
fn take(
    p: &Program,
    heap: &Heap,
    arrays: &[ArrayObject],
    choice: Choice,
    locals: &Locals,
    steps: &[Triple],
    thrown: Option<ClassId>,
    s: Triple,
) -> Advance
    requires { s.to ≤ highest_steps steps.now }
    ensures seen { (cells : List Cell) → move_seen cells result ≡ take p.now heap.now arrays.now choice locals.now (map (step_in cells) steps.now) thrown (step_in cells s) s.action }
    ensures within { control_left result ≤ highest_steps steps.now }
{
    match s.action {
        Action::Call(m, _, _, _) => {
            call(p, heap, arrays, choice, locals, steps, s.action, s.pos, m)
        }
        Action::New(m, _, _) => call(p, heap, arrays, choice, locals, steps, s.action, s.pos, m),
        Action::Super(m, _, _) => call(p, heap, arrays, choice, locals, steps, s.action, s.pos, m),
        Action::Plain(_, value) => { take_plain(p, heap, arrays, choice, locals, steps, s, value) }
        Action::End(completion) => Advance::End(s.pos, completion),
        _ => Advance::Inner(thrown, s),
    }
}

// The step that the values of a frame of the method choose.
fn chosen_of(
    p: &Program,
    heap: &Heap,
    arrays: &[ArrayObject],
    method: MethodId,
    locals: &Locals,
    steps: &[Triple],
) -> Option<Triple>
    ensures step { (cells : List Cell) → option_map (step_in cells) result ≡ chosen_of p.now heap.now arrays.now method locals.now (map (step_in cells) steps.now) }
    ensures within { IfSome result (λ s. s.to ≤ highest_steps steps.now) }
{
    chosen(p, heap, arrays, method, locals, steps)
}

fn take_chosen(
    p: &Program,
    heap: &Heap,
    arrays: &[ArrayObject],
    choice: Choice,
    method: MethodId,
    locals: &Locals,
    steps: &[Triple],
    thrown: Option<ClassId>,
) -> Advance
    ensures seen { (cells : List Cell) → move_seen cells result ≡ take_chosen p.now heap.now arrays.now choice locals.now (map (step_in cells) steps.now) thrown (chosen_of p.now heap.now arrays.now method locals.now (map (step_in cells) steps.now)) }
    ensures within { control_left result ≤ highest_steps steps.now }
{
    match chosen_of(p, heap, arrays, method, locals, steps) {
        None => Advance::Rest,
        Some(s) => take(p, heap, arrays, choice, locals, steps, thrown, s),
    }
}

#[tactic(auto, unfolding(crate::specs::Moves::operate))]
fn operate(
    p: &Program,
    heap: &Heap,
    arrays: &[ArrayObject],
    choice: Choice,
    method: MethodId,
    locals: &Locals,
    steps: &[Triple],
    pos: Pos,
    thrown: Option<ClassId>,
) -> Advance
    ensures seen { (cells : List Cell) → move_seen cells result ≡ operate p.now heap.now arrays.now choice method locals.now (map (step_in cells) steps.now) pos thrown }
    ensures within { control_left result ≤ highest_steps steps.now }
{
    if let Some(class) = thrown {
        if is_ignored(p, class) {
            return Advance::Stray(class, pos);
        }
    }
    take_chosen(p, heap, arrays, choice, method, locals, steps, thrown)
}

#[tactic(auto, unfolding(crate::specs::Moves::next_move))]
fn next_move(
    p: &Program,
    heap: &Heap,
    arrays: &[ArrayObject],
    choice: Choice,
    method: MethodId,
    locals: &Locals,
    steps: &[Triple],
    first: Option<FirstAction>,
) -> Advance
    ensures seen { (cells : List Cell) → move_seen cells result ≡ next_move p.now heap.now arrays.now choice method locals.now (map (step_in cells) steps.now) first }
    ensures within { control_left result ≤ highest_steps steps.now }
{
    match first {
        None => take_chosen(p, heap, arrays, choice, method, locals, steps, None),
        Some(a) => {
            let thrown = thrown_by_operation(p, heap, arrays, locals, a.action);
            operate(
                p, heap, arrays, choice, method, locals, steps, a.pos, thrown,
            )
        }
    }
}

/// What comes next in the frame. What is left to run afterwards is added to the table of lists.
pub fn frame_move(
    alloc: Global,
    lists: &mut Lists,
    p: &Program,
    heap: &Heap,
    arrays: &[ArrayObject],
    choice: Choice,
    frame: &ActiveFrame,
) -> Result<Advance, NoMemory>
    requires { frame.now.control ≤ length lists.old.cells.keys }
    ensures seen { IfOk result (λ a. move_seen lists.new.cells.keys a ≡ next_move p.now heap.now arrays.now choice frame.now.method frame.now.locals (frame_steps p.now (frame_seen lists.old.cells.keys frame.now)) (standing (slice_get (todos (list_at lists.old.cells.keys frame.now.control)) 0))) }
    ensures within { IfOk result (λ a. control_left a ≤ length lists.new.cells.keys) }
    ensures kept { Keeps lists.old.cells.keys lists.new.cells.keys }
{
    let first = first_action(lists, frame.control);
    let steps = frame_steps(alloc, lists, p, frame)?;
    Ok(next_move(
        p,
        heap,
        arrays,
        choice,
        frame.method,
        &frame.locals,
        &steps,
        first,
    ))
}
