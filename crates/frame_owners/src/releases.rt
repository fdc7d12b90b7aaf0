//! What a frame gives up when it ends.

ghost use Rattle.std.specs.Prelude.{◌≡◌};
ghost use Rattle.frame_owners.specs.FrameOwners.{owns_unmet, released};
ghost use Rattle.ledger_obligations.specs.Obligations.{given_up_by_frame, is_frame};
ghost use Rattle.ledger_state.specs.Heaps.{change_one, object_at};

use ledger_obligations::{given_up, is_unmet};
use ledger_state::{Heap, Object, Owner};

/// Whether the frame at the position is the owner.
pub fn is_of_frame(owner: Owner, position: u64) -> bool
    ensures { result ≡ is_frame owner position }
{
    match owner {
        Owner::Frame(found) => found == position,
        Owner::Field(_, _) | Owner::Library | Owner::Released | Owner::Lost | Owner::Unowned =>
            false,
    }
}

/// Whether the object with this number is unmet, and the frame at the position owns it.
pub fn owns_unmet(heap: &Heap, position: u64, number: u64) -> bool
    ensures { result ≡ owns_unmet position (object_at heap.now number) }
{
    match heap.object(number) {
        None => false,
        Some(x) => is_unmet(&x) && is_of_frame(x.owner, position),
    }
}

// The object as the frame at the position leaves it.
fn given_up_by(position: u64, number: u64, x: Object) -> Object
    ensures { result ≡ given_up_by_frame position number x }
{
    if is_of_frame(x.owner, position) {
        given_up(x)
    } else {
        x
    }
}

#[tactic(auto, using(ledger_obligations::proofs::ChangeLaws::change_absent, ledger_obligations::proofs::ChangeLaws::change_as))]
fn release_one(heap: &mut Heap, position: u64, number: u64)
    ensures { heap.new ≡ change_one number (given_up_by_frame position number) heap.old }
{
    if let Some(x) = heap.object(number) {
        heap.put(number, given_up_by(position, number, x));
    }
}

/// The frame at the position gives up those of the objects that it owns.
pub fn release(heap: &mut Heap, position: u64, numbers: &[u64])
    ensures { heap.new ≡ released position numbers.now heap.old }
{
    for number in numbers {
        release_one(heap, position, *number);
    }
}
