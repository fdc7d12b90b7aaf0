//! Stores into owning fields.

ghost use Rattle.std.specs.Prelude.{◌≡◌, ◌∷◌, ◌++◌, map, reverse, IfOk, IfSome};
ghost use Rattle.draft_lines.specs.DraftLines.{AllOfHeap, leak_entries_of};
ghost use Rattle.draft_stages.specs.Stages.{IndexedRest};
ghost use Rattle.draft_steps.specs.Steps.{IsDraft};
ghost use Rattle.draft_stores.specs.OwningStores.{StoredBy, store_leaks, store_left, store_written};
ghost use Rattle.heap_drafts.specs.Drafts.{Drafted};
ghost use Rattle.ledger_steps.specs.Entries.{owner_entries, reset_entries};
ghost use Rattle.ledger_obligations.specs.Obligations.{displaced, held_in, moved_in, reset_roots, roots_where, stored_owning};
ghost use Rattle.ledger_state.specs.Locals.{held};
ghost use Rattle.ledger_steps.specs.Effects.{left};
ghost use Rattle.object_index.specs.ObjectIndexes.{Indexed};
ghost use Rattle.settled_heaps.specs.Settled.{Settled};

use crate::deciding::decide;
use crate::stages::{draft_own, draft_release, roots_of_holder};
use draft_lines::Leak;
use draft_stages::{draft_end, draft_reset_roots, held_roots};
use draft_steps::{DraftStep, step_of};
use heap_drafts::{SavedObject, restore};
use ledger_obligations::{ActiveFrame, OwningStore};
use ledger_state::{Entry, Heap, Locals, Owner, StoredField};
use object_index::ObjectIndex;
use program_model::Program;
use rlc_base::{NoMemory, Pos};
use std::alloc::Global;

/// The lines and the leaks of a store.
#[derive(Drop)]
struct StoreLines {
    lines: Vec<Entry>,
    leaks: Vec<Leak>,
}

// The old content is given up and the value moves, in the heap. The lines of the new owner, and the leaks.
fn moved_in_place(
    alloc: Global,
    p: &Program,
    pos: Pos,
    s: OwningStore,
    heap: &mut Heap,
    saved: &mut Vec<SavedObject>,
) -> Result<Option<StoreLines>, NoMemory>
    ensures heap { IfOk result (λ o. IfSome o (λ v. heap.new ≡ moved_in p.now heap.old s.holder s.field s.bound s.value)) }
    ensures lines { IfOk result (λ o. IfSome o (λ v. v.lines.items ≡ owner_entries p.now pos (displaced p.now heap.old s.holder s.field s.value) (moved_in p.now heap.old s.holder s.field s.bound s.value))) }
    ensures leaks { IfOk result (λ o. IfSome o (λ v. leak_entries_of v.leaks.items ≡ store_leaks p.now pos heap.old s)) }
    ensures all { IfOk result (λ o. IfSome o (λ v. AllOfHeap heap.new v.leaks.items)) }
    ensures drafted { Drafted saved.old.items heap.old saved.new.items heap.new }
{
    let found = decide(p, heap, s);
    let released = draft_release(alloc, p, pos, found.released, found.old, heap, saved)?;
    match released {
        None => Ok(None),
        Some(leaks) => {
            let mut lines = Vec::new(alloc);
            let owner = Owner::Field(s.holder, s.field);
            if draft_own(
                alloc,
                p,
                pos,
                found.moved,
                found.root,
                owner,
                heap,
                saved,
                &mut lines,
            )? {
                Ok(Some(StoreLines { lines, leaks }))
            } else {
                Ok(None)
            }
        }
    }
}

// Then the holder is reset, in the heap, where the store resets it. Its lines stand before those of the new owner.
fn reset_in_place(
    alloc: Global,
    p: &Program,
    pos: Pos,
    holder: u64,
    reset: bool,
    owned: StoreLines,
    heap: &mut Heap,
    index: &ObjectIndex,
    saved: &mut Vec<SavedObject>,
) -> Result<Option<StoreLines>, NoMemory>
    requires rest { IndexedRest index.now saved.old.items heap.old }
    requires all { AllOfHeap heap.old owned.leaks.items }
    ensures heap { IfOk result (λ o. IfSome o (λ v. heap.new ≡ reset_roots p.now (roots_where reset heap.old holder) heap.old)) }
    ensures lines { IfOk result (λ o. IfSome o (λ v. v.lines.items ≡ reset_entries p.now pos (roots_where reset heap.old holder) heap.old ++ owned.lines.items)) }
    ensures leaks { IfOk result (λ o. IfSome o (λ v. v.leaks ≡ owned.leaks)) }
    ensures all { IfOk result (λ o. IfSome o (λ v. AllOfHeap heap.new v.leaks.items)) }
    ensures drafted { Drafted saved.old.items heap.old saved.new.items heap.new }
{
    let StoreLines {
        lines: owners,
        leaks,
    } = owned;
    let roots = roots_of_holder(alloc, heap, reset, holder)?;
    let mut lines = Vec::new(alloc);
    if !draft_reset_roots(alloc, p, pos, &roots, index, heap, saved, &mut lines)? {
        return Ok(None);
    }
    lines.extend_from_slice(&owners)?;
    Ok(Some(StoreLines { lines, leaks }))
}

// The store, in the heap, but for the value that is stored.
fn changed_in_place(
    alloc: Global,
    p: &Program,
    pos: Pos,
    s: OwningStore,
    heap: &mut Heap,
    index: &ObjectIndex,
    saved: &mut Vec<SavedObject>,
) -> Result<Option<StoreLines>, NoMemory>
    requires { Indexed index.now heap.old }
    ensures heap { IfOk result (λ o. IfSome o (λ v. heap.new ≡ store_left p.now heap.old s)) }
    ensures lines { IfOk result (λ o. IfSome o (λ v. v.lines.items ≡ store_written p.now pos heap.old s)) }
    ensures leaks { IfOk result (λ o. IfSome o (λ v. leak_entries_of v.leaks.items ≡ store_leaks p.now pos heap.old s)) }
    ensures all { IfOk result (λ o. IfSome o (λ v. AllOfHeap heap.new v.leaks.items)) }
    ensures drafted { Drafted saved.old.items heap.old saved.new.items heap.new }
{
    let reset = decide(p, heap, s).reset;
    let moved = moved_in_place(alloc, p, pos, s, heap, saved)?;
    match moved {
        None => Ok(None),
        Some(owned) => {
            let found = reset_in_place(alloc, p, pos, s.holder, reset, owned, heap, index, saved)?;
            Ok(found)
        }
    }
}

// The step, in the heap, but for the value that is stored. The lines of the ledger that it writes.
fn store_in_place(
    alloc: Global,
    p: &Program,
    pos: Pos,
    locals: &Locals,
    s: OwningStore,
    heap: &mut Heap,
    index: &ObjectIndex,
    now: &Locals,
    below: &[ActiveFrame],
    saved: &mut Vec<SavedObject>,
) -> Result<Option<Vec<Entry>>, NoMemory>
    requires settled { Settled heap.old (held locals.now ∷ map held_in (reverse below.now)) }
    requires indexed { Indexed index.now heap.old }
    ensures heap { IfOk result (λ o. IfSome o (λ v. heap.new ≡ (left p.now pos (held now.now ∷ map held_in (reverse below.now)) (store_written p.now pos heap.old s) (store_leaks p.now pos heap.old s) (store_left p.now heap.old s)).heap)) }
    ensures lines { IfOk result (λ o. IfSome o (λ v. v.items ≡ (left p.now pos (held now.now ∷ map held_in (reverse below.now)) (store_written p.now pos heap.old s) (store_leaks p.now pos heap.old s) (store_left p.now heap.old s)).lines)) }
    ensures settled { IfOk result (λ o. IfSome o (λ v. Settled heap.new (held now.now ∷ map held_in (reverse below.now)))) }
    ensures drafted { Drafted saved.old.items heap.old saved.new.items heap.new }
{
    let roots = held_roots(alloc, heap, locals)?;
    let changed = changed_in_place(alloc, p, pos, s, heap, index, saved)?;
    match changed {
        None => Ok(None),
        Some(found) => {
            let StoreLines { lines, leaks } = found;
            let every_line = draft_end(
                alloc, p, pos, now, below, &roots, heap, saved, lines, leaks,
            )?;
            Ok(every_line)
        }
    }
}

/// The same step, which stores the value besides.
pub(crate) fn with_store(
    step: Result<Option<DraftStep>, NoMemory>,
    s: OwningStore,
) -> Result<Option<DraftStep>, NoMemory>
    ensures { IfOk result (λ o. IfSome o (λ d. StoredBy step s d)) }
{
    match step {
        Ok(Some(found)) => {
            let DraftStep {
                changes,
                made,
                stored: _,
                lines,
            } = found;
            let field = StoredField {
                holder: s.holder,
                field: s.field,
                value: s.value,
            };
            Ok(Some(DraftStep {
                changes,
                made,
                stored: Some(field),
                lines,
            }))
        }
        Ok(None) => Ok(None),
        Err(error) => Err(error),
    }
}

/// What a store into an owning field changes of the heap, which stays as it is. `locals` are the values of the frame, `now` those that it
/// has after the step, and `below` are the frames below it. None where the roots of the contents have the number 0, which no object has.
pub(crate) fn draft_store(
    alloc: Global,
    p: &Program,
    pos: Pos,
    locals: &Locals,
    s: OwningStore,
    heap: &mut Heap,
    index: &ObjectIndex,
    now: &Locals,
    below: &[ActiveFrame],
) -> Result<Option<DraftStep>, NoMemory>
    requires settled { Settled heap.old (held locals.now ∷ map held_in (reverse below.now)) }
    requires indexed { Indexed index.now heap.old }
    ensures kept { heap.new ≡ heap.old }
    ensures draft { IfOk result (λ o. IfSome o (λ d. IsDraft d heap.old (held now.now ∷ map held_in (reverse below.now)) (left p.now pos (held now.now ∷ map held_in (reverse below.now)) (store_written p.now pos heap.old s) (store_leaks p.now pos heap.old s) (stored_owning p.now heap.old s.holder s.field s.bound s.value)))) }
{
    let count = heap.objects.len();
    let mut saved = Vec::new(alloc);
    let lines = store_in_place(
        alloc, p, pos, locals, s, heap, index, now, below, &mut saved,
    );
    let step = step_of(alloc, heap, count, &saved, lines);
    restore(heap, count, &saved);
    with_store(step, s)
}
