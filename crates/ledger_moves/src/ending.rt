//! How the end of a frame goes on in its caller.

ghost use Rattle.std.specs.Prelude.{◌≡◌, ◌≤◌, List, None, Some, length, map, slice_get, IfOk};
ghost use Rattle.control_actions.specs.declared.action.Edge.TheVariants as edges;
ghost use Rattle.java_control.specs.Changes.{highest_steps, step_in};
ghost use Rattle.control_actions.specs.declared.cell.Cell.{Cell};
ghost use Rattle.java_control.specs.Tables.{Keeps};
ghost use Rattle.ledger_frames.specs.Choosing.{frame_steps};
ghost use Rattle.ledger_moves.specs.Frames.{control_back, frame_seen, return_seen};
ghost use Rattle.ledger_moves.specs.Moves.{back_as, back_by, back_to, by_class, by_edge, return_move};

use crate::advance::CallEnd;
use crate::calls::{by_class, by_edge};
use crate::frames::frame_steps;
use java_control::{Edge, Lists, Triple, called_method};
use ledger_frames::{is_stray_from, leaves_by};
use ledger_obligations::ActiveFrame;
use program_model::{ClassId, MethodId, Program};
use rlc_base::{NoMemory, Pos};
use std::alloc::Global;

fn back_normally(named: MethodId, steps: &[Triple]) -> CallEnd
    ensures seen { (cells : List Cell) → return_seen cells result ≡ back_by None named (by_edge edges.Go (map (step_in cells) steps.now)) }
    ensures within { control_back result ≤ highest_steps steps.now }
{
    match by_edge(Edge::Go, steps) {
        None => CallEnd::NoWay,
        Some(t) => CallEnd::Back(None, named, t),
    }
}

fn back_by_class(
    thrown: ClassId,
    named: MethodId,
    class: Option<ClassId>,
    steps: &[Triple],
) -> CallEnd
    ensures seen { (cells : List Cell) → return_seen cells result ≡ back_by (Some thrown) named (by_class class (map (step_in cells) steps.now)) }
    ensures within { control_back result ≤ highest_steps steps.now }
{
    match by_class(class, steps) {
        None => CallEnd::NoWay,
        Some(t) => CallEnd::Back(Some(thrown), named, t),
    }
}

// An exception leaves the call by its class in the named signature, unless it is stray.
#[tactic(auto, unfolding(crate::specs::Moves::back_as))]
fn back_as(
    p: &Program,
    steps: &[Triple],
    pos: Pos,
    named: MethodId,
    thrown: Option<ClassId>,
) -> CallEnd
    ensures seen { (cells : List Cell) → return_seen cells result ≡ back_as p.now (map (step_in cells) steps.now) pos named thrown }
    ensures within { control_back result ≤ highest_steps steps.now }
{
    match thrown {
        None => back_normally(named, steps),
        Some(class) => {
            if is_stray_from(p, named, class) {
                return CallEnd::Stray(class, pos);
            }
            back_by_class(class, named, leaves_by(p, named, class), steps)
        }
    }
}

#[tactic(auto, unfolding(crate::specs::Moves::back_to))]
fn back_to(
    p: &Program,
    steps: &[Triple],
    pos: Pos,
    thrown: Option<ClassId>,
    named: Option<MethodId>,
) -> CallEnd
    ensures seen { (cells : List Cell) → return_seen cells result ≡ back_to p.now (map (step_in cells) steps.now) pos thrown named }
    ensures within { control_back result ≤ highest_steps steps.now }
{
    match named {
        None => CallEnd::NoWay,
        Some(m) => back_as(p, steps, pos, m, thrown),
    }
}

// The first step, where there is one.
fn first_step(steps: &[Triple]) -> Option<Triple>
    ensures { result ≡ slice_get steps.now 0 }
{
    steps.first().copied()
}

#[tactic(auto, using(crate::proofs::FrameLaws::first_seen), unfolding(crate::specs::Moves::return_move))]
fn return_by(p: &Program, steps: &[Triple], thrown: Option<ClassId>) -> CallEnd
    ensures seen { (cells : List Cell) → return_seen cells result ≡ return_move p.now (map (step_in cells) steps.now) thrown }
    ensures within { control_back result ≤ highest_steps steps.now }
{
    match first_step(steps) {
        None => CallEnd::NoWay,
        Some(t) => back_to(p, steps, t.pos, thrown, called_method(t.action)),
    }
}

/// How the end of a frame, by an exception of this class or by none, goes on in its caller. What is left to run afterwards is
/// added to the table of lists.
pub fn call_end(
    alloc: Global,
    lists: &mut Lists,
    p: &Program,
    caller: &ActiveFrame,
    thrown: Option<ClassId>,
) -> Result<CallEnd, NoMemory>
    requires { caller.now.control ≤ length lists.old.cells.keys }
    ensures seen { IfOk result (λ e. return_seen lists.new.cells.keys e ≡ return_move p.now (frame_steps p.now (frame_seen lists.old.cells.keys caller.now)) thrown) }
    ensures within { IfOk result (λ e. control_back e ≤ length lists.new.cells.keys) }
    ensures kept { Keeps lists.old.cells.keys lists.new.cells.keys }
{
    let steps = frame_steps(alloc, lists, p, caller)?;
    Ok(return_by(p, &steps, thrown))
}
