//! Steps within a frame.

ghost use Rattle.std.specs.Prelude.{◌≡◌, ◌∷◌, [], map, reverse, IfOk, IfSome};
ghost use Rattle.draft_steps.specs.Steps.{IsDraft};
ghost use Rattle.ledger_obligations.specs.Obligations.{held_in};
ghost use Rattle.ledger_state.specs.Heaps.{put_field};
ghost use Rattle.ledger_state.specs.Locals.{held};
ghost use Rattle.ledger_steps.specs.Effects.{left};
ghost use Rattle.ledger_steps.specs.InnerSteps.{displaced_lines, inner, is_bound, store_lines, store_of, store_unless, stored_by};
ghost use Rattle.object_index.specs.ObjectIndexes.{Indexed};
ghost use Rattle.program_model.specs.Lookups.{method_at};
ghost use Rattle.settled_heaps.specs.Settled.{Settled};

use crate::deciding::{is_bound, is_owning};
use crate::operations::draft_operation;
use crate::stores::{draft_store, with_store};
use control_actions::Action;
use draft_steps::DraftStep;
use ledger_obligations::{ActiveFrame, OwningStore};
use ledger_state::{Heap, Locals};
use ledger_steps::{Store, store_of};
use object_index::ObjectIndex;
use program_model::{ClassId, MethodId, Program};
use rlc_base::{NoMemory, Pos};
use std::alloc::Global;

fn owning_store(
    p: &Program,
    heap: &Heap,
    method: MethodId,
    locals: &Locals,
    s: Store,
) -> OwningStore
    ensures holder { result.holder ≡ s.holder }
    ensures field { result.field ≡ s.field }
    ensures value { result.value ≡ s.value }
    ensures bound { result.bound ≡ is_bound heap.now (method_at p.now method) locals.now s.value }
{
    OwningStore {
        holder: s.holder,
        field: s.field,
        bound: is_bound(p, heap, method, locals, s.value),
        value: s.value,
    }
}

// The store of the step, which throws an exception of the class or none.
fn store_done(locals: &Locals, action: Action, thrown: Option<ClassId>) -> Option<Store>
    ensures { result ≡ store_unless thrown (store_of locals.now action) }
{
    match thrown {
        None => store_of(locals, action),
        Some(_) => None,
    }
}

// A step that stores into a field that owns nothing.
fn draft_put(
    alloc: Global,
    p: &Program,
    pos: Pos,
    locals: &Locals,
    s: Store,
    heap: &mut Heap,
    now: &Locals,
    below: &[ActiveFrame],
) -> Result<Option<DraftStep>, NoMemory>
    requires { Settled heap.old (held locals.now ∷ map held_in (reverse below.now)) }
    ensures kept { heap.new ≡ heap.old }
    ensures draft { IfOk result (λ o. IfSome o (λ d. IsDraft d heap.old (held now.now ∷ map held_in (reverse below.now)) (left p.now pos (held now.now ∷ map held_in (reverse below.now)) [] [] (put_field s.holder s.field s.value heap.old)))) }
{
    let step = draft_operation(alloc, p, pos, locals, None, heap, now, below);
    let stored = OwningStore {
        holder: s.holder,
        field: s.field,
        bound: false,
        value: s.value,
    };
    with_store(step, stored)
}

// A step that stores.
fn draft_stored(
    alloc: Global,
    p: &Program,
    pos: Pos,
    method: MethodId,
    locals: &Locals,
    found: Store,
    heap: &mut Heap,
    index: &ObjectIndex,
    now: &Locals,
    below: &[ActiveFrame],
) -> Result<Option<DraftStep>, NoMemory>
    requires settled { Settled heap.old (held locals.now ∷ map held_in (reverse below.now)) }
    requires indexed { Indexed index.now heap.old }
    ensures kept { heap.new ≡ heap.old }
    ensures draft { IfOk result (λ o. IfSome o (λ d. IsDraft d heap.old (held now.now ∷ map held_in (reverse below.now)) (left p.now pos (held now.now ∷ map held_in (reverse below.now)) (store_lines p.now pos (method_at p.now method) locals.now found heap.old) (displaced_lines p.now pos found heap.old) (stored_by p.now (method_at p.now method) locals.now found heap.old)))) }
{
    if is_owning(p, found.field) {
        let s = owning_store(p, heap, method, locals, found);
        draft_store(alloc, p, pos, locals, s, heap, index, now, below)
    } else {
        draft_put(alloc, p, pos, locals, found, heap, now, below)
    }
}

/// What a step within a frame of the method changes of the heap, which stays as it is. It throws an exception of the class or none.
/// `locals` are the values of the frame, `now` those that it has after the step, and `below` are the frames below it. None, which no run
/// comes to, where a frame owns an unmet alias, or the roots of what an owning field holds have the number 0, which no object has.
pub fn draft_inner(
    alloc: Global,
    p: &Program,
    pos: Pos,
    method: MethodId,
    locals: &Locals,
    thrown: Option<ClassId>,
    action: Action,
    heap: &mut Heap,
    index: &ObjectIndex,
    now: &Locals,
    below: &[ActiveFrame],
) -> Result<Option<DraftStep>, NoMemory>
    requires settled { Settled heap.old (held locals.now ∷ map held_in (reverse below.now)) }
    requires indexed { Indexed index.now heap.old }
    ensures kept { heap.new ≡ heap.old }
    ensures draft { IfOk result (λ o. IfSome o (λ d. IsDraft d heap.old (held now.now ∷ map held_in (reverse below.now)) (inner p.now heap.old method locals.now thrown action pos (held now.now ∷ map held_in (reverse below.now))))) }
{
    let store = store_done(locals, action, thrown);
    match store {
        None => draft_operation(alloc, p, pos, locals, thrown, heap, now, below),
        Some(found) => draft_stored(
            alloc, p, pos, method, locals, found, heap, index, now, below,
        ),
    }
}
