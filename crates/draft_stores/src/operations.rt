//! Steps within a frame that store into no owning field.

ghost use Rattle.std.specs.Prelude.{◌≡◌, ◌+◌, ◌∷◌, ◌++◌, [], None, length, map, reverse, true, false, IfOk, IfSome, OnOk};
ghost use Rattle.draft_steps.specs.Steps.{IsDraft};
ghost use Rattle.heap_drafts.specs.Drafts.{Drafted, snapshots};
ghost use Rattle.ledger_obligations.specs.Obligations.{finished, held_in};
ghost use Rattle.ledger_state.specs.declared.entry.Owner.TheVariants as owners;
ghost use Rattle.ledger_state.specs.Heaps.{change_one};
ghost use Rattle.ledger_state.specs.Locals.{held};
ghost use Rattle.ledger_steps.specs.Effects.{left};
ghost use Rattle.ledger_steps.specs.InnerSteps.{thrown_heap, with_exception};
ghost use Rattle.must_call_sets.specs.MustCallSets.{must_of};
ghost use Rattle.settled_heaps.specs.Settled.{Settled, drops_any};

use draft_stages::{draft_end, held_roots};
use draft_steps::{DraftStep, step_of};
use heap_drafts::{SavedObject, make_object, restore, save};
use ledger_obligations::{ActiveFrame, finished};
use ledger_state::{Entry, Heap, Locals, Owner};
use must_call_sets::must;
use program_model::{ClassId, Program};
use rlc_base::{NoMemory, Pos};
use settled_heaps::drops_any;
use std::alloc::Global;

// The exception with this number gets the set of its class, and the library owns it.
#[tactic(auto, using(ledger_obligations::proofs::ChangeLaws::change_absent))]
fn finish_exception(p: &Program, class: ClassId, number: u64, heap: &mut Heap)
    ensures { heap.new ≡ change_one number (finished (must_of p.now class) owners.Library) heap.old }
{
    if let Some(x) = heap.object(number) {
        heap.put(number, finished(must(p, class), Owner::Library, x));
    }
}

fn save_one(heap: &Heap, number: u64, saved: &mut Vec<SavedObject>) -> Result<(), NoMemory>
    ensures ok { OnOk result (saved.new.items ≡ saved.old.items ++ snapshots heap.now (number ∷ [])) }
    ensures drafted { Drafted saved.old.items heap.now saved.new.items heap.now }
{
    save(heap, &[number], saved)
}

// An exception of the class is made, as an object of the library.
fn add_exception(
    p: &Program,
    class: ClassId,
    heap: &mut Heap,
    saved: &mut Vec<SavedObject>,
) -> Result<(), NoMemory>
    ensures heap { OnOk result (heap.new ≡ with_exception p.now class heap.old) }
    ensures drafted { Drafted saved.old.items heap.old saved.new.items heap.new }
{
    let number = heap.next_number();
    make_object(heap, class, saved)?;
    save_one(heap, number, saved)?;
    finish_exception(p, class, number, heap);
    Ok(())
}

// The exception that the operation throws is made, where it throws one.
fn throw_in_place(
    p: &Program,
    thrown: Option<ClassId>,
    heap: &mut Heap,
    saved: &mut Vec<SavedObject>,
) -> Result<(), NoMemory>
    ensures heap { OnOk result (heap.new ≡ thrown_heap p.now thrown heap.old) }
    ensures drafted { Drafted saved.old.items heap.old saved.new.items heap.new }
{
    if let Some(class) = thrown {
        add_exception(p, class, heap, saved)?;
    }
    Ok(())
}

// The step, in the heap, but for a value that is stored. The lines of the ledger that it writes.
fn operation_in_place(
    alloc: Global,
    p: &Program,
    pos: Pos,
    locals: &Locals,
    thrown: Option<ClassId>,
    heap: &mut Heap,
    now: &Locals,
    below: &[ActiveFrame],
    saved: &mut Vec<SavedObject>,
) -> Result<Option<Vec<Entry>>, NoMemory>
    requires { Settled heap.old (held locals.now ∷ map held_in (reverse below.now)) }
    ensures heap { IfOk result (λ o. IfSome o (λ v. heap.new ≡ (left p.now pos (held now.now ∷ map held_in (reverse below.now)) [] [] (thrown_heap p.now thrown heap.old)).heap)) }
    ensures lines { IfOk result (λ o. IfSome o (λ v. v.items ≡ (left p.now pos (held now.now ∷ map held_in (reverse below.now)) [] [] (thrown_heap p.now thrown heap.old)).lines)) }
    ensures settled { IfOk result (λ o. IfSome o (λ v. Settled heap.new (held now.now ∷ map held_in (reverse below.now)))) }
    ensures drafted { Drafted saved.old.items heap.old saved.new.items heap.new }
{
    let roots = held_roots(alloc, heap, locals)?;
    throw_in_place(p, thrown, heap, saved)?;
    let lines = Vec::new(alloc);
    let leaks = Vec::new(alloc);
    let all = draft_end(alloc, p, pos, now, below, &roots, heap, saved, lines, leaks)?;
    Ok(all)
}

// The step by which the frame drops an object, or which throws.
fn changing_operation(
    alloc: Global,
    p: &Program,
    pos: Pos,
    locals: &Locals,
    thrown: Option<ClassId>,
    heap: &mut Heap,
    now: &Locals,
    below: &[ActiveFrame],
) -> Result<Option<DraftStep>, NoMemory>
    requires { Settled heap.old (held locals.now ∷ map held_in (reverse below.now)) }
    ensures kept { heap.new ≡ heap.old }
    ensures draft { IfOk result (λ o. IfSome o (λ d. IsDraft d heap.old (held now.now ∷ map held_in (reverse below.now)) (left p.now pos (held now.now ∷ map held_in (reverse below.now)) [] [] (thrown_heap p.now thrown heap.old)))) }
    ensures stored { IfOk result (λ o. IfSome o (λ d. d.stored ≡ None)) }
{
    let count = heap.objects.len();
    let mut saved = Vec::new(alloc);
    let lines = operation_in_place(alloc, p, pos, locals, thrown, heap, now, below, &mut saved);
    let step = step_of(alloc, heap, count, &saved, lines);
    restore(heap, count, &saved);
    step
}

// What a step changes that changes nothing.
fn no_change(alloc: Global) -> DraftStep
    ensures changes { result.changes.items ≡ [] }
    ensures made { result.made ≡ None }
    ensures stored { result.stored ≡ None }
    ensures lines { result.lines.items ≡ [] }
{
    DraftStep {
        changes: Vec::new(alloc),
        made: None,
        stored: None,
        lines: Vec::new(alloc),
    }
}

// Whether the step, by which the places of the top frame hold `now`, neither throws nor drops an object.
fn keeps_all(
    heap: &Heap,
    below: &[ActiveFrame],
    locals: &Locals,
    now: &Locals,
    thrown: Option<ClassId>,
) -> bool
    ensures thrown { result ≡ true → thrown ≡ None }
    ensures drops { result ≡ true → drops_any heap.now (length below.now + 1) (held locals.now) (held now.now) ≡ false }
{
    if thrown.is_some() {
        return false;
    }
    let position = below.len() as u64 + 1;
    !drops_any(heap, position, locals, now)
}

/// What a step within a frame changes of the heap, which stays as it is, but for a value that it stores into a field that owns nothing.
/// It throws an exception of the class or none. `locals` are the values of the frame, `now` those that it has after the step, and `below`
/// are the frames below it. None, which no run comes to, where a frame owns an unmet alias.
pub(crate) fn draft_operation(
    alloc: Global,
    p: &Program,
    pos: Pos,
    locals: &Locals,
    thrown: Option<ClassId>,
    heap: &mut Heap,
    now: &Locals,
    below: &[ActiveFrame],
) -> Result<Option<DraftStep>, NoMemory>
    requires { Settled heap.old (held locals.now ∷ map held_in (reverse below.now)) }
    ensures kept { heap.new ≡ heap.old }
    ensures draft { IfOk result (λ o. IfSome o (λ d. IsDraft d heap.old (held now.now ∷ map held_in (reverse below.now)) (left p.now pos (held now.now ∷ map held_in (reverse below.now)) [] [] (thrown_heap p.now thrown heap.old)))) }
    ensures stored { IfOk result (λ o. IfSome o (λ d. d.stored ≡ None)) }
{
    if keeps_all(heap, below, locals, now, thrown) {
        return Ok(Some(no_change(alloc)));
    }
    changing_operation(alloc, p, pos, locals, thrown, heap, now, below)
}
