//! Which of the steps of a frame its values choose.

ghost use Rattle.std.specs.Prelude.{◌≡◌, List, map, option_map, MatchOption, None, Some};
ghost use Rattle.std.specs.List.{find};
ghost use Rattle.java_control.specs.Changes.{step_in};
ghost use Rattle.control_actions.specs.declared.cell.Cell.{Cell};
ghost use Rattle.control_actions.specs.declared.triple.Triple.{Triple};
ghost use Rattle.ledger_frames.specs.Choosing.{agrees, agrees_with, goes_by, is_number, is_taken, method_body, same_edge};

use crate::edges::{fits_edge, operation_edge, same_edge};
use java_control::{Action, ClauseId, Edge, Triple, clause_taken};
use ledger_operations::thrown_by_operation;
use ledger_state::{ArrayObject, Heap, Locals, runtime_class};
use program_model::{Body, ClassId, MethodId, Program};

/// The body of a method.
pub fn method_body(p: &Program, method: MethodId) -> Option<&Body>
    ensures { MatchOption result (method_body p.now method ≡ None) (λ b. method_body p.now method ≡ Some b.now) }
{
    match p.method(method) {
        None => None,
        Some(m) => match m.body {
            None => None,
            Some(b) => p.body(b),
        },
    }
}

fn is_number(number: usize, found: Option<usize>) -> bool
    ensures { result ≡ is_number number found }
{
    match found {
        None => false,
        Some(k) => number == k,
    }
}

// Whether the clause takes an exception of this class.
fn is_taken(p: &Program, method: MethodId, clause: ClauseId, class: Option<ClassId>) -> bool
    ensures { result ≡ is_taken p.now (method_body p.now method) clause class }
{
    match class {
        None => false,
        Some(thrown) => match method_body(p, method) {
            None => false,
            Some(body) => is_number(
                clause.index,
                clause_taken(p, body, clause.statement, thrown),
            ),
        },
    }
}

fn agrees_with(
    p: &Program,
    heap: &Heap,
    arrays: &[ArrayObject],
    method: MethodId,
    locals: &Locals,
    action: Action,
    edge: Edge,
) -> bool
    ensures { result ≡ agrees_with p.now heap.now arrays.now method locals.now action edge }
{
    match action {
        Action::Test(depth) => fits_edge(locals.temp(u64::from(depth)), edge),
        Action::Enter(clause, _, _, depth) => is_taken(
            p,
            method,
            clause,
            runtime_class(p, heap, locals.temp(u64::from(depth))),
        ),
        _ => {
            let thrown = thrown_by_operation(p, heap, arrays, locals, action);
            same_edge(operation_edge(action, thrown), edge)
        }
    }
}

fn first_agreeing(
    p: &Program,
    heap: &Heap,
    arrays: &[ArrayObject],
    method: MethodId,
    locals: &Locals,
    steps: &[Triple],
) -> Option<Triple>
    ensures { result ≡ find (λ (s : Triple). agrees_with p.now heap.now arrays.now method locals.now s.action s.edge) steps.now }
{
    steps.iter().copied().find(|s| agrees_with(p, heap, arrays, method, locals, s.action, s.edge))
}

fn first_by(edge: Edge, steps: &[Triple]) -> Option<Triple>
    ensures { result ≡ find (λ (s : Triple). same_edge edge s.edge) steps.now }
{
    steps.iter().copied().find(|s| same_edge(edge, s.edge))
}

/// The first of the steps that the values choose.
pub fn chosen(
    p: &Program,
    heap: &Heap,
    arrays: &[ArrayObject],
    method: MethodId,
    locals: &Locals,
    steps: &[Triple],
) -> Option<Triple>
    ensures { (cells : List Cell) → option_map (step_in cells) result ≡ find (agrees p.now heap.now arrays.now method locals.now) (map (step_in cells) steps.now) }
{
    first_agreeing(p, heap, arrays, method, locals, steps)
}

/// The first of the steps that goes by this edge.
pub fn step_by(edge: Edge, steps: &[Triple]) -> Option<Triple>
    ensures { (cells : List Cell) → option_map (step_in cells) result ≡ find (goes_by edge) (map (step_in cells) steps.now) }
{
    first_by(edge, steps)
}
