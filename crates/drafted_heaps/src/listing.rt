//! The lists of the frames' objects after a step.

ghost use Rattle.std.specs.Prelude.{◌≡◌, Some, true, IfOk};
ghost use Rattle.drafted_heaps.specs.DraftedHeaps.{AllListed, drafted_by, heap_left};
ghost use Rattle.frame_owners.specs.FrameOwners.{HasAll, Listed, is_listed, lists_in};
ghost use Rattle.ledger_state.specs.declared.object.Object.{Object};

use crate::change::{DraftChange, HeapChange};
use frame_owners::add_owned;
use ledger_obligations::owner_of;
use ledger_state::{Heap, Object};
use rlc_base::NoMemory;
use spread_notes::Numbered;

// Puts the object into the list of its owner, unless that was its owner before. Says whether there is such a list.
fn list_one(lists: &mut Vec<Vec<u64>>, heap: &Heap, found: &Numbered) -> Result<bool, NoMemory>
    requires { Listed (lists_in lists.old.items) heap.now }
    ensures all { HasAll (lists_in lists.old.items) (lists_in lists.new.items) }
    ensures listed { IfOk result (λ b. b ≡ true → is_listed (lists_in lists.new.items) found.now.object.owner found.now.number ≡ true) }
{
    if owner_of(heap, found.number) == found.object.owner {
        return Ok(true);
    }
    add_owned(lists, found.object.owner, found.number)
}

fn list_each(lists: &mut Vec<Vec<u64>>, heap: &Heap, objects: &[Numbered]) -> Result<bool, NoMemory>
    requires { Listed (lists_in lists.old.items) heap.now }
    ensures all { HasAll (lists_in lists.old.items) (lists_in lists.new.items) }
    ensures listed { IfOk result (λ b. b ≡ true → AllListed (lists_in lists.new.items) objects.now) }
{
    'each: for found in objects {
        if !list_one(lists, heap, found)? {
            return Ok(false);
        }
    }
    Ok(true)
}

fn list_made(lists: &mut Vec<Vec<u64>>, number: u64, made: Option<Object>) -> Result<bool, NoMemory>
    ensures all { HasAll (lists_in lists.old.items) (lists_in lists.new.items) }
    ensures listed { IfOk result (λ b. b ≡ true → (x : Object) → made ≡ Some x → is_listed (lists_in lists.new.items) x.owner number ≡ true) }
{
    match made {
        None => Ok(true),
        Some(x) => add_owned(lists, x.owner, number),
    }
}

// Puts the objects that the step changes and makes into the lists of their owners. Says whether the lists are those of the heap then.
fn list_draft(
    lists: &mut Vec<Vec<u64>>,
    heap: &Heap,
    change: &DraftChange,
) -> Result<bool, NoMemory>
    requires { Listed (lists_in lists.old.items) heap.now }
    ensures kept { Listed (lists_in lists.new.items) heap.now }
    ensures listed { IfOk result (λ b. b ≡ true → Listed (lists_in lists.new.items) (drafted_by change.now heap.now)) }
{
    if !list_made(lists, heap.next_number(), change.made)? {
        return Ok(false);
    }
    list_each(lists, heap, &change.changed)
}

// The same for any step; they are not known after one on the whole heap.
fn list_of_change(
    lists: &mut Vec<Vec<u64>>,
    heap: &Heap,
    change: &HeapChange,
) -> Result<bool, NoMemory>
    requires { Listed (lists_in lists.old.items) heap.now }
    ensures kept { Listed (lists_in lists.new.items) heap.now }
    ensures listed { IfOk result (λ b. b ≡ true → Listed (lists_in lists.new.items) (heap_left change.now heap.now)) }
{
    match change {
        HeapChange::Whole(_) => Ok(false),
        HeapChange::Drafted(found) => list_draft(lists, heap, found),
    }
}

/// Puts the objects that a step changes and makes into the lists of their owners, where the lists are those of the heap, as `known` says.
/// Says whether they are those of the heap that the step leaves, which they are not where memory runs out; they stay those of the heap
/// before it in any case.
pub fn list_change(lists: &mut Vec<Vec<u64>>, heap: &Heap, change: &HeapChange, known: bool) -> bool
    requires { known ≡ true → Listed (lists_in lists.old.items) heap.now }
    ensures kept { Listed (lists_in lists.old.items) heap.now → Listed (lists_in lists.new.items) heap.now }
    ensures listed { result ≡ true → Listed (lists_in lists.new.items) (heap_left change.now heap.now) }
{
    if !known {
        return false;
    }
    match list_of_change(lists, heap, change) {
        Ok(listed) => listed,
        Err(_) => false,
    }
}
