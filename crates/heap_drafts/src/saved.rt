//! Objects that are saved before they change.

ghost use Rattle.std.specs.Prelude.{◌≡◌, ◌++◌, OnErr, OnOk};
ghost use Rattle.heap_drafts.specs.Drafts.{Drafted, put_back, put_one, renewed_one, shortened, snapshots};
ghost use Rattle.heap_drafts.specs.Drafts.{as_it_is};

use ledger_state::{Heap, Object};
use rlc_base::NoMemory;

/// An object, with its number.
#[derive(Clone, Copy)]
pub struct SavedObject {
    pub number: u64,
    pub object: Object,
}

fn put_one(heap: &mut Heap, saved: SavedObject)
    ensures { heap.new ≡ put_one saved heap.old }
{
    heap.put(saved.number, saved.object);
}

/// Puts each of the objects in its place, the last one first. It takes no memory.
pub(crate) fn put_back(heap: &mut Heap, saved: &[SavedObject])
    ensures { heap.new ≡ put_back saved.now heap.old }
{
    let count = saved.len();
    'each: for done in 0..count {
        put_one(heap, saved[count - 1 - done]);
    }
}

fn shorten(heap: &mut Heap, count: usize)
    ensures { heap.new ≡ shortened count heap.old }
{
    heap.objects.truncate(count);
}

/// Takes a draft back: the heap has so many objects again, and those that were saved are what they were. It takes no memory.
pub fn restore(heap: &mut Heap, count: usize, saved: &[SavedObject])
    ensures { heap.new ≡ put_back saved.now (shortened count heap.old) }
{
    shorten(heap, count);
    put_back(heap, saved);
}

// Saves the object with this number, where there is one.
fn save_one(heap: &Heap, number: u64, saved: &mut Vec<SavedObject>) -> Result<(), NoMemory>
    ensures ok { OnOk result (saved.new.items ≡ saved.old.items ++ renewed_one as_it_is heap.now number) }
    ensures err { OnErr result (saved.new.items ≡ saved.old.items) }
{
    match heap.object(number) {
        None => Ok(()),
        Some(object) => Ok(saved.push(SavedObject { number, object })?),
    }
}

/// Saves the objects with these numbers, as they are.
pub fn save(heap: &Heap, numbers: &[u64], saved: &mut Vec<SavedObject>) -> Result<(), NoMemory>
    ensures ok { OnOk result (saved.new.items ≡ saved.old.items ++ snapshots heap.now numbers.now) }
    ensures drafted { Drafted saved.old.items heap.now saved.new.items heap.now }
{
    'each: for number in numbers {
        save_one(heap, *number, saved)?;
    }
    Ok(())
}
