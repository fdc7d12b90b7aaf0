//! The lists of a heap.

ghost use Rattle.std.specs.Prelude.{◌≡◌, IfOk, IfSome, Some, true, vec_len};
ghost use Rattle.frame_owners.specs.FrameOwners.{HasAll, Listed, is_listed, lists_in};
ghost use Rattle.ledger_state.specs.declared.object.Object.{Object};
ghost use Rattle.ledger_state.specs.Heaps.{object_at};

use crate::lists::add_owned;
use ledger_state::Heap;
use rlc_base::NoMemory;
use std::alloc::Global;

// So many empty lists.
fn empty_lists(alloc: Global, count: usize) -> Result<Vec<Vec<u64>>, NoMemory>
    ensures { IfOk result (λ v. vec_len v ≡ count) }
{
    let mut lists = Vec::new(alloc);
    for _list in 0..count {
        lists.push(Vec::new(alloc))?;
    }
    Ok(lists)
}

fn listed(lists: Vec<Vec<u64>>) -> Option<Vec<Vec<u64>>>
    ensures { IfSome result (λ v. v ≡ lists) }
{
    Some(lists)
}

// Puts the object with this number into the list of the frame that owns it. Says whether there is such a list.
fn add_object(lists: &mut Vec<Vec<u64>>, heap: &Heap, number: u64) -> Result<bool, NoMemory>
    ensures all { HasAll (lists_in lists.old.items) (lists_in lists.new.items) }
    ensures listed { IfOk result (λ b. b ≡ true → (x : Object) → object_at heap.now number ≡ Some x → is_listed (lists_in lists.new.items) x.owner number ≡ true) }
{
    match heap.object(number) {
        None => Ok(true),
        Some(x) => add_owned(lists, x.owner, number),
    }
}

/// The lists of the objects that so many frames own, unless another frame owns one. It walks all objects.
pub fn owner_lists(
    alloc: Global,
    heap: &Heap,
    count: usize,
) -> Result<Option<Vec<Vec<u64>>>, NoMemory>
    ensures { IfOk result (λ o. IfSome o (λ v. Listed (lists_in v.items) heap.now)) }
{
    let mut lists = empty_lists(alloc, count)?;
    'each: for place in 0..heap.objects.len() {
        if !add_object(&mut lists, heap, place as u64 + 1)? {
            return Ok(None);
        }
    }
    Ok(listed(lists))
}
