//! Whether no object of a heap is left to lose.

ghost use Rattle.std.specs.Prelude.{◌≡◌, ◌∷◌, true, map, reverse};
ghost use Rattle.ledger_obligations.specs.Obligations.{held_in};
ghost use Rattle.ledger_state.specs.Locals.{held};
ghost use Rattle.settled_heaps.specs.Settled.{Settled, is_kept, is_settled};

use crate::frames::frame_holds;
use ledger_obligations::{ActiveFrame, is_unmet};
use ledger_state::{Heap, Link, Locals, Object, Owner};

fn is_kept(
    heap: &Heap,
    top: &Locals,
    below: &[ActiveFrame],
    owner: Owner,
    link: Option<Link>,
    number: u64,
) -> bool
    ensures { result ≡ is_kept heap.now (held top.now ∷ map held_in (reverse below.now)) owner link number }
{
    match owner {
        Owner::Frame(position) => match link {
            None => frame_holds(heap, top, below, position, number),
            Some(_) => false,
        },
        Owner::Field(_, _) | Owner::Library | Owner::Released | Owner::Lost | Owner::Unowned =>
            true,
    }
}

/// Whether the object is met, or its owner keeps it. The top frame stands apart from those below it, of which that of `main` is the
/// first.
pub fn is_settled(heap: &Heap, top: &Locals, below: &[ActiveFrame], number: u64, x: &Object) -> bool
    ensures { result ≡ is_settled heap.now (held top.now ∷ map held_in (reverse below.now)) number x.now }
{
    !is_unmet(x) || is_kept(heap, top, below, x.owner, x.link, number)
}

/// Whether no object of the heap is left to lose. It walks all objects.
pub fn is_settled_heap(heap: &Heap, top: &Locals, below: &[ActiveFrame]) -> bool
    ensures { result ≡ true → Settled heap.now (held top.now ∷ map held_in (reverse below.now)) }
{
    'each: for place in 0..heap.objects.len() {
        let number = place as u64 + 1;
        if let Some(x) = heap.object(number) {
            if !is_settled(heap, top, below, number, &x) {
                return false;
            }
        }
    }
    true
}
