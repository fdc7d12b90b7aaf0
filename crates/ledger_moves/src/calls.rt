//! What comes next where a call stands first.

ghost use Rattle.std.specs.Prelude.{◌≡◌, ◌≤◌, List, map, IfSome};
ghost use Rattle.std.specs.Option.{option_map};
ghost use Rattle.java_control.specs.Changes.{highest_steps, step_in};
ghost use Rattle.control_actions.specs.declared.action.Edge.TheVariants as edges;
ghost use Rattle.control_actions.specs.declared.cell.Cell.{Cell};
ghost use Rattle.ledger_frames.specs.LedgerCallsCalls.{body_of, form_of, operand_of};
ghost use Rattle.ledger_moves.specs.Frames.{control_left, move_seen};
ghost use Rattle.ledger_moves.specs.Moves.{by_class, by_edge, call, call_of, fits_target, has_body, inner_by, is_target_of, library_as, library_by, library_call, null_target, program_call};
ghost use Rattle.program_model.specs.Lookups.{method_at};

use crate::advance::Advance;
use java_control::{Action, Edge, TargetForm, Triple, target_form};
use ledger_frames::{
    has_null_target, is_stray_from, leaves_by, library_method, on_this, operand_of, running,
    settled, step_by,
};
use ledger_obligations::is_library_method;
use ledger_state::{ArrayObject, Heap, Locals, Value, is_instance};
use program_model::{ClassId, MethodId, Program, VType, is_ignored};
use rlc_base::Pos;
use stub_conduct::{Choice, Conduct};

/// The step that goes by this edge.
pub(crate) fn by_edge(edge: Edge, steps: &[Triple]) -> Option<Triple>
    ensures step { (cells : List Cell) → option_map (step_in cells) result ≡ by_edge edge (map (step_in cells) steps.now) }
    ensures within { IfSome result (λ s. s.to ≤ highest_steps steps.now) }
{
    step_by(edge, steps)
}

/// The step of an exception that leaves by this class.
pub(crate) fn by_class(class: Option<ClassId>, steps: &[Triple]) -> Option<Triple>
    ensures step { (cells : List Cell) → option_map (step_in cells) result ≡ by_class class (map (step_in cells) steps.now) }
    ensures within { IfSome result (λ s. s.to ≤ highest_steps steps.now) }
{
    match class {
        None => None,
        Some(c) => by_edge(Edge::Throws(c), steps),
    }
}

// A null target throws after the arguments are evaluated.
#[tactic(auto, unfolding(crate::specs::Moves::null_target))]
fn null_target(p: &Program, steps: &[Triple], pos: Pos, named: MethodId) -> Advance
    ensures seen { (cells : List Cell) → move_seen cells result ≡ null_target p.now (map (step_in cells) steps.now) pos named }
    ensures within { control_left result ≤ highest_steps steps.now }
{
    let class = p.core.null_pointer_exception;
    if is_ignored(p, class) {
        return Advance::Stray(class, pos);
    }
    match by_class(leaves_by(p, named, class), steps) {
        None => Advance::Rest,
        Some(s) => Advance::Inner(Some(class), s),
    }
}

fn library_returns(named: MethodId, method: MethodId, conduct: Conduct, steps: &[Triple]) -> Advance
    ensures seen { (cells : List Cell) → move_seen cells result ≡ library_by named method conduct (by_edge edges.Go (map (step_in cells) steps.now)) }
    ensures within { control_left result ≤ highest_steps steps.now }
{
    match by_edge(Edge::Go, steps) {
        None => Advance::Rest,
        Some(s) => Advance::Library(named, method, conduct, s),
    }
}

fn library_by_class(
    named: MethodId,
    method: MethodId,
    conduct: Conduct,
    class: Option<ClassId>,
    steps: &[Triple],
) -> Advance
    ensures seen { (cells : List Cell) → move_seen cells result ≡ library_by named method conduct (by_class class (map (step_in cells) steps.now)) }
    ensures within { control_left result ≤ highest_steps steps.now }
{
    match by_class(class, steps) {
        None => Advance::Rest,
        Some(s) => Advance::Library(named, method, conduct, s),
    }
}

// The library does this at the call.
#[tactic(auto, unfolding(crate::specs::Moves::library_as))]
fn library_as(
    p: &Program,
    steps: &[Triple],
    pos: Pos,
    named: MethodId,
    method: MethodId,
    conduct: Conduct,
) -> Advance
    ensures seen { (cells : List Cell) → move_seen cells result ≡ library_as p.now (map (step_in cells) steps.now) pos named method conduct }
    ensures within { control_left result ≤ highest_steps steps.now }
{
    match conduct {
        Conduct::Throws(class) => {
            if is_stray_from(p, named, class) {
                return Advance::Stray(class, pos);
            }
            library_by_class(named, method, conduct, leaves_by(p, named, class), steps)
        }
        Conduct::Fresh(_)
        | Conduct::Null
        | Conduct::Existing(_)
        | Conduct::Argument
        | Conduct::Value(_)
        | Conduct::Nothing => library_returns(named, method, conduct, steps),
    }
}

/// A call of the library goes by the next choice.
#[tactic(auto, unfolding(crate::specs::Moves::library_call))]
pub(crate) fn library_call(
    p: &Program,
    heap: &Heap,
    arrays: &[ArrayObject],
    choice: Choice,
    locals: &Locals,
    steps: &[Triple],
    action: Action,
    pos: Pos,
    named: MethodId,
    method: MethodId,
) -> Advance
    ensures seen { (cells : List Cell) → move_seen cells result ≡ library_call p.now heap.now arrays.now choice locals.now (map (step_in cells) steps.now) action pos named method }
    ensures within { control_left result ≤ highest_steps steps.now }
{
    let asked = settled(p, heap, arrays, method, choice, locals, action);
    library_as(p, steps, pos, named, method, on_this(action, asked))
}

fn has_body(p: &Program, method: MethodId) -> bool
    ensures { result ≡ has_body (body_of (method_at p.now method)) }
{
    match p.method(method) {
        None => false,
        Some(m) => m.body.is_some(),
    }
}

// A method without a body never runs.
fn program_call(p: &Program, action: Action, pos: Pos, named: MethodId, runs: MethodId) -> Advance
    ensures seen { (cells : List Cell) → move_seen cells result ≡ program_call p.now action pos named runs }
    ensures within { control_left result ≡ 0 }
{
    if has_body(p, runs) {
        Advance::Start(named, runs, action, pos)
    } else {
        Advance::Rest
    }
}

#[tactic(auto, unfolding(crate::specs::Moves::call_of))]
fn call_of(
    p: &Program,
    heap: &Heap,
    arrays: &[ArrayObject],
    choice: Choice,
    locals: &Locals,
    steps: &[Triple],
    action: Action,
    pos: Pos,
    named: MethodId,
    runs: MethodId,
) -> Advance
    ensures seen { (cells : List Cell) → move_seen cells result ≡ call_of p.now heap.now arrays.now choice locals.now (map (step_in cells) steps.now) action pos named runs }
    ensures within { control_left result ≤ highest_steps steps.now }
{
    if is_library_method(p, runs) {
        let method = library_method(p, named, runs);
        library_call(
            p, heap, arrays, choice, locals, steps, action, pos, named, method,
        )
    } else {
        program_call(p, action, pos, named, runs)
    }
}

fn is_target_of(
    p: &Program,
    heap: &Heap,
    arrays: &[ArrayObject],
    named: MethodId,
    value: Value,
) -> bool
    ensures { result ≡ is_target_of p.now heap.now arrays.now (method_at p.now named) value }
{
    match p.method(named) {
        None => false,
        Some(m) => is_instance(p, heap, arrays, VType::Obj(m.class), value),
    }
}

// Whether the target of the call, where it has one, is of a class that has the named method.
fn fits_target(
    p: &Program,
    heap: &Heap,
    arrays: &[ArrayObject],
    locals: &Locals,
    action: Action,
    named: MethodId,
) -> bool
    ensures { result ≡ fits_target p.now heap.now arrays.now (method_at p.now named) (form_of action) (operand_of locals.now action 0) }
{
    match target_form(action) {
        None | Some(TargetForm::Static | TargetForm::Super) => true,
        Some(TargetForm::This | TargetForm::Other) => {
            is_target_of(p, heap, arrays, named, operand_of(locals, action, 0))
        }
    }
}

/// What comes next where a call of the named method stands first. `steps` are the steps of the frame.
#[tactic(auto, unfolding(crate::specs::Moves::call))]
pub(crate) fn call(
    p: &Program,
    heap: &Heap,
    arrays: &[ArrayObject],
    choice: Choice,
    locals: &Locals,
    steps: &[Triple],
    action: Action,
    pos: Pos,
    named: MethodId,
) -> Advance
    ensures seen { (cells : List Cell) → move_seen cells result ≡ call p.now heap.now arrays.now choice locals.now (map (step_in cells) steps.now) action pos named }
    ensures within { control_left result ≤ highest_steps steps.now }
{
    if has_null_target(locals, action) {
        return null_target(p, steps, pos, named);
    }
    if !fits_target(p, heap, arrays, locals, action, named) {
        return Advance::Rest;
    }
    let runs = running(p, heap, locals, action, named);
    call_of(
        p, heap, arrays, choice, locals, steps, action, pos, named, runs,
    )
}
