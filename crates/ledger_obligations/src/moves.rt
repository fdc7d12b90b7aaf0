//! Moves of objects to new owners.

ghost use Rattle.std.specs.Prelude.{◌≡◌};
ghost use Rattle.ledger_obligations.specs.Obligations.{given_up, move, moved_to, moved_where, released_where};
ghost use Rattle.ledger_state.specs.Heaps.{change_some};

use crate::unmet::{given_up, moved_to, with_owner};
use ledger_state::{Heap, Owner, Value};
use program_model::{Program, VType};

/// The value moves to a place of type `t`, whose owner is `owner`.
#[tactic(auto, using(crate::proofs::ChangeLaws::change_absent))]
pub fn move_value(p: &Program, t: VType, owner: Owner, value: Value, heap: &mut Heap)
    ensures { heap.new ≡ move p.now t owner value heap.old }
{
    if let Some(root) = heap.root_of(value) {
        if let Some(x) = heap.object(root) {
            heap.put(root, moved_to(p, t, owner, x));
        }
    }
}

// The root, where there is one, is given up, if it is released.
#[tactic(auto, using(crate::proofs::ChangeLaws::change_absent))]
pub(crate) fn release(released: bool, root: Option<u64>, heap: &mut Heap)
    ensures { heap.new ≡ released_where released root heap.old }
{
    if released {
        if let Some(number) = root {
            if let Some(x) = heap.object(number) {
                heap.put(number, given_up(x));
            }
        }
    }
}

// The root, where there is one, gets this owner, if it moves.
#[tactic(auto, using(crate::proofs::ChangeLaws::change_absent))]
pub(crate) fn own(moved: bool, root: Option<u64>, owner: Owner, heap: &mut Heap)
    ensures { heap.new ≡ moved_where moved root owner heap.old }
{
    if moved {
        if let Some(number) = root {
            if let Some(x) = heap.object(number) {
                heap.put(number, with_owner(owner, x));
            }
        }
    }
}
