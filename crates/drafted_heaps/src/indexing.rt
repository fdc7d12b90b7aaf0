//! The index of the objects after a step: those that it changes and makes are put into it, as they are then.

ghost use Rattle.std.specs.Prelude.{◌≡◌, IfOk, true};
ghost use Rattle.drafted_heaps.specs.DraftedHeaps.{drafted_by, heap_left};
ghost use Rattle.ledger_state.specs.Contents.{HeapContents};
ghost use Rattle.ledger_state.specs.Heaps.{next_number};
ghost use Rattle.object_index.specs.ObjectIndexes.{HasMore, Indexed};
ghost use Rattle.spread_notes.specs.SpreadNotes.{add_made, put_each, put_numbered};

use crate::change::{DraftChange, HeapChange};
use ledger_state::{Heap, Object};
use object_index::{ObjectIndex, add_object, change_object};
use rlc_base::NoMemory;
use spread_notes::Numbered;
use std::alloc::Global;

// Puts an object into the index as it becomes. Says whether the index has it then.
fn index_one(
    alloc: Global,
    index: &mut ObjectIndex,
    heap: &Heap,
    changed: &Numbered,
) -> Result<bool, NoMemory>
    requires { Indexed index.old heap.now }
    ensures all { HasMore index.old index.new }
    ensures put { IfOk result (λ b. b ≡ true → (g : HeapContents) → Indexed index.old g → Indexed index.new (put_numbered changed.now g)) }
{
    change_object(alloc, index, heap, changed.number, &changed.object)
}

// The same for objects that change.
fn index_each(
    alloc: Global,
    index: &mut ObjectIndex,
    heap: &Heap,
    changed: &[Numbered],
) -> Result<bool, NoMemory>
    requires { Indexed index.old heap.now }
    ensures all { HasMore index.old index.new }
    ensures put { IfOk result (λ b. b ≡ true → (g : HeapContents) → Indexed index.old g → Indexed index.new (put_each changed.now g)) }
{
    'each: for found in changed {
        if !index_one(alloc, index, heap, found)? {
            return Ok(false);
        }
    }
    Ok(true)
}

// Puts an object that is made into the index, with the number that it has then. Says whether the index has it then.
fn index_made(
    alloc: Global,
    index: &mut ObjectIndex,
    number: u64,
    made: &Option<Object>,
) -> Result<bool, NoMemory>
    ensures all { HasMore index.old index.new }
    ensures put { IfOk result (λ b. b ≡ true → (g : HeapContents) → number ≡ next_number g → Indexed index.old g → Indexed index.new (add_made made.now g)) }
{
    match made {
        None => Ok(true),
        Some(x) => add_object(alloc, index, number, x),
    }
}

// Puts the objects that the step changes and makes into the index. Says whether the index is that of the heap then.
fn index_draft(
    alloc: Global,
    index: &mut ObjectIndex,
    heap: &Heap,
    change: &DraftChange,
) -> Result<bool, NoMemory>
    requires { Indexed index.old heap.now }
    ensures kept { Indexed index.new heap.now }
    ensures indexed { IfOk result (λ b. b ≡ true → Indexed index.new (drafted_by change.now heap.now)) }
{
    if !index_made(alloc, index, heap.next_number(), &change.made)? {
        return Ok(false);
    }
    index_each(alloc, index, heap, &change.changed)
}

// The same for any step; it is not known after one on the whole heap.
fn index_of_change(
    alloc: Global,
    index: &mut ObjectIndex,
    heap: &Heap,
    change: &HeapChange,
) -> Result<bool, NoMemory>
    requires { Indexed index.old heap.now }
    ensures kept { Indexed index.new heap.now }
    ensures indexed { IfOk result (λ b. b ≡ true → Indexed index.new (heap_left change.now heap.now)) }
{
    match change {
        HeapChange::Whole(_) => Ok(false),
        HeapChange::Drafted(found) => index_draft(alloc, index, heap, found),
    }
}

/// Puts the objects that a step changes and makes into the index, where the index is that of the heap, as `known` says. Says whether it is
/// that of the heap which the step leaves, which it is not where memory runs out; it stays that of the heap before it in any case.
pub fn index_change(
    alloc: Global,
    index: &mut ObjectIndex,
    heap: &Heap,
    change: &HeapChange,
    known: bool,
) -> bool
    requires { known ≡ true → Indexed index.old heap.now }
    ensures kept { Indexed index.old heap.now → Indexed index.new heap.now }
    ensures indexed { result ≡ true → Indexed index.new (heap_left change.now heap.now) }
{
    if !known {
        return false;
    }
    match index_of_change(alloc, index, heap, change) {
        Ok(indexed) => indexed,
        Err(_) => false,
    }
}
