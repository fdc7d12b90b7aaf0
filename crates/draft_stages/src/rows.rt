//! What became of the objects that a stage saved.

ghost use Rattle.std.specs.Prelude.{◌≡◌, ◌≤◌, drop, option_map, vec_len, IfOk};
ghost use Rattle.draft_stages.specs.Stages.{change_of, changes_since};
ghost use Rattle.ledger_state.specs.Heaps.{object_at};

use draft_lines::ObjectChange;
use heap_drafts::SavedObject;
use ledger_state::Heap;
use rlc_base::NoMemory;
use std::alloc::Global;

fn change_since(heap: &Heap, saved: &SavedObject) -> Option<ObjectChange>
    ensures { result ≡ option_map (change_of saved.now) (object_at heap.now saved.now.number) }
{
    match heap.object(saved.number) {
        None => None,
        Some(after) => Some(ObjectChange {
            number: saved.number,
            before: Some(saved.object),
            after,
        }),
    }
}

fn changes_of(
    alloc: Global,
    heap: &Heap,
    saved: &[SavedObject],
) -> Result<Vec<ObjectChange>, NoMemory>
    ensures { IfOk result (λ v. v.items ≡ changes_since heap.now saved.now) }
{
    let mut changes = Vec::new(alloc);
    'each: for one in saved {
        if let Some(change) = change_since(heap, one) {
            changes.push(change)?;
        }
    }
    Ok(changes)
}

/// What became of the objects that were saved behind the first ones.
pub fn changes_after(
    alloc: Global,
    heap: &Heap,
    saved: &Vec<SavedObject>,
    from: usize,
) -> Result<Vec<ObjectChange>, NoMemory>
    requires { from ≤ vec_len saved.now }
    ensures { IfOk result (λ v. v.items ≡ changes_since heap.now (drop from saved.now.items)) }
{
    changes_of(alloc, heap, &saved.as_slice()[from..])
}
