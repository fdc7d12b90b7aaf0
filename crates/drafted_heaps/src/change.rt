//! How the heap takes what a step changes.

ghost use Rattle.std.specs.Prelude.{◌≡◌, ◌-◌, Option, is_some, length, take, OnErr, OnOk};
ghost use Rattle.draft_steps.specs.Steps.{put_stored};
ghost use Rattle.drafted_heaps.specs.DraftedHeaps.{drafted_by, heap_left};
ghost use Rattle.ledger_state.specs.declared.object.Object.{Object};
ghost use Rattle.ledger_state.specs.Contents.{HeapContents};
ghost use Rattle.ledger_state.specs.Heaps.{with_objects};
ghost use Rattle.spread_notes.specs.SpreadNotes.{add_made};

use ledger_state::{Heap, Object, StoredField};
use rlc_base::NoMemory;
use spread_notes::{Numbered, put_each};

/// What a step changes of the heap: objects that are there become others, there is one object more, and a field takes a value.
#[derive(Drop)]
pub struct DraftChange {
    pub changed: Vec<Numbered>,
    pub made: Option<Object>,
    pub stored: Option<StoredField>,
}

/// What a step leaves of the heap.
#[derive(Drop)]
pub enum HeapChange {
    /// Another heap.
    Whole(Heap),
    /// The same heap, in which some objects change, one is made, or a field takes a value.
    Drafted(DraftChange),
}

// Puts the object that a step makes behind the others. Where memory runs out the heap stays as it was.
fn add_made(heap: &mut Heap, made: Option<Object>) -> Result<(), NoMemory>
    ensures ok { OnOk result (heap.new ≡ add_made made heap.old) }
    ensures err { OnErr result (heap.new ≡ heap.old) }
{
    match made {
        None => Ok(()),
        Some(object) => Ok(heap.objects.push(object)?),
    }
}

fn put_stored(heap: &mut Heap, stored: Option<StoredField>) -> Result<(), NoMemory>
    ensures ok { OnOk result (heap.new ≡ put_stored stored heap.old) }
    ensures err { OnErr result (heap.new ≡ heap.old) }
{
    match stored {
        None => Ok(()),
        Some(s) => heap.put_field(s.holder, s.field, s.value),
    }
}

// The last object is no more.
fn drop_last(heap: &mut Heap)
    ensures { heap.new ≡ with_objects heap.old (take (length heap.old.objects - 1) heap.old.objects) }
{
    let _gone = heap.objects.pop();
}

// Takes away the object that was added, where one was.
fn take_back(heap: &mut Heap, added: bool)
    ensures { (g : HeapContents) (made : Option Object) → added ≡ is_some made → heap.old ≡ add_made made g → heap.new ≡ g }
{
    if added {
        drop_last(heap);
    }
}

// There is one object more, and the field takes the value. Where memory runs out the heap stays as it was.
fn add_and_store(
    heap: &mut Heap,
    made: Option<Object>,
    stored: Option<StoredField>,
) -> Result<(), NoMemory>
    ensures ok { OnOk result (heap.new ≡ put_stored stored (add_made made heap.old)) }
    ensures err { OnErr result (heap.new ≡ heap.old) }
{
    let added = made.is_some();
    add_made(heap, made)?;
    match put_stored(heap, stored) {
        Ok(()) => Ok(()),
        Err(NoMemory) => {
            take_back(heap, added);
            Err(NoMemory)
        }
    }
}

// Changes the heap as the step does. Where memory runs out the heap stays as it was.
fn apply_draft(heap: &mut Heap, change: &DraftChange) -> Result<(), NoMemory>
    ensures ok { OnOk result (heap.new ≡ drafted_by change.now heap.old) }
    ensures err { OnErr result (heap.new ≡ heap.old) }
{
    add_and_store(heap, change.made, change.stored)?;
    put_each(heap, &change.changed);
    Ok(())
}

/// The heap becomes what a step leaves of it. Where memory runs out it stays.
pub fn take_change(heap: &mut Heap, change: HeapChange) -> Result<(), NoMemory>
    ensures ok { OnOk result (heap.new ≡ heap_left change heap.old) }
    ensures err { OnErr result (heap.new ≡ heap.old) }
{
    match change {
        HeapChange::Whole(after) => {
            *heap = after;
            Ok(())
        }
        HeapChange::Drafted(found) => apply_draft(heap, &found),
    }
}
