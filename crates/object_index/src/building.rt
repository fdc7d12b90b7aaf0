//! The index of a heap that is looked through.

ghost use Rattle.std.specs.Prelude.{◌≡◌, IfOk, IfSome, Some, true};
ghost use Rattle.ledger_state.specs.declared.object.Object.{Object};
ghost use Rattle.ledger_state.specs.Heaps.{object_at};
ghost use Rattle.object_index.specs.ObjectIndexes.{HasMore, Indexed, is_indexed};

use crate::adding::add_object;
use crate::index::ObjectIndex;
use ledger_state::Heap;
use rlc_base::NoMemory;
use std::alloc::Global;

// Puts the object with this number into the index. Says whether the index has it then.
fn add_number(
    alloc: Global,
    index: &mut ObjectIndex,
    heap: &Heap,
    number: u64,
) -> Result<bool, NoMemory>
    ensures all { HasMore index.old index.new }
    ensures there { IfOk result (λ b. b ≡ true → (x : Object) → object_at heap.now number ≡ Some x → is_indexed index.new number x ≡ true) }
{
    match heap.object(number) {
        None => Ok(true),
        Some(x) => add_object(alloc, index, number, &x),
    }
}

fn found(index: ObjectIndex) -> Option<ObjectIndex>
    ensures { IfSome result (λ i. i ≡ index) }
{
    Some(index)
}

/// The index of the heap, unless an object is linked to one that was not made before it, or is linked and belongs to a frame or a field. It
/// walks all objects.
pub fn heap_index(alloc: Global, heap: &Heap) -> Result<Option<ObjectIndex>, NoMemory>
    ensures { IfOk result (λ o. IfSome o (λ i. Indexed i heap.now)) }
{
    let mut index = ObjectIndex::new(alloc);
    'each: for place in 0..heap.objects.len() {
        if !add_number(alloc, &mut index, heap, place as u64 + 1)? {
            return Ok(None);
        }
    }
    Ok(found(index))
}
