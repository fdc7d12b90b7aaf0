//! An object more.

ghost use Rattle.std.specs.Prelude.{◌≡◌, OnOk};
ghost use Rattle.heap_drafts.specs.Drafts.{Drafted};
ghost use Rattle.ledger_state.specs.Heaps.{append};

use crate::saved::SavedObject;
use ledger_state::{Heap, unfinished};
use program_model::ClassId;
use rlc_base::NoMemory;

/// Makes an object of the class, which is not finished.
pub fn make_object(
    heap: &mut Heap,
    class: ClassId,
    saved: &mut Vec<SavedObject>,
) -> Result<(), NoMemory>
    ensures heap { OnOk result (heap.new ≡ append heap.old class) }
    ensures drafted { Drafted saved.old.items heap.old saved.new.items heap.new }
{
    let number = heap.next_number();
    let object = unfinished(class);
    saved.push(SavedObject { number, object })?;
    heap.append(class)?;
    Ok(())
}
