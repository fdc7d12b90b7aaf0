//! Lists of frames that end.

ghost use Rattle.std.specs.Prelude.{◌≡◌, ◌<◌, length, true};
ghost use Rattle.std.specs.List.{list_any};
ghost use Rattle.drafted_heaps.specs.DraftedHeaps.{belongs_to};
ghost use Rattle.frame_owners.specs.FrameOwners.{Listed, list_at, lists_in};
ghost use Rattle.ledger_state.specs.Heaps.{object_at};

use frame_owners::{drop_list, is_of_frame};
use ledger_state::Heap;

// Whether there is an object with this number, and the frame at the position owns it.
fn belongs_to(heap: &Heap, position: u64, number: u64) -> bool
    ensures { result ≡ belongs_to position (object_at heap.now number) }
{
    match heap.object(number) {
        None => false,
        Some(x) => is_of_frame(x.owner, position),
    }
}

fn owns_any(heap: &Heap, position: u64, numbers: &[u64]) -> bool
    ensures { result ≡ list_any (λ k. belongs_to position (object_at heap.now k)) numbers.now }
{
    numbers
        .iter()
        .any(|number| belongs_to(heap, position, *number))
}

fn last_list(lists: &[Vec<u64>]) -> &[u64]
    requires { 0 < length lists.now }
    ensures { result.now ≡ list_at (lists_in lists.now) (length lists.now) }
{
    &lists[lists.len() - 1]
}

// Takes away the list of the top frame, which has ended, where it owns nothing. Says whether that is so.
fn end_list(heap: &Heap, lists: &mut Vec<Vec<u64>>) -> bool
    requires { Listed (lists_in lists.old.items) heap.now }
    ensures { result ≡ true → Listed (lists_in lists.new.items) heap.now }
{
    if lists.len() == 0 {
        return false;
    }
    if owns_any(heap, lists.len() as u64, last_list(lists)) {
        return false;
    }
    drop_list(lists);
    true
}

/// Takes away the list of the top frame, which has ended, where the lists are those of the heap, as `known` says, and it owns nothing.
/// Says whether the lists are those of the heap then.
pub fn end_top_list(heap: &Heap, lists: &mut Vec<Vec<u64>>, known: bool) -> bool
    requires { known ≡ true → Listed (lists_in lists.old.items) heap.now }
    ensures { result ≡ true → Listed (lists_in lists.new.items) heap.now }
{
    if !known {
        return false;
    }
    end_list(heap, lists)
}
