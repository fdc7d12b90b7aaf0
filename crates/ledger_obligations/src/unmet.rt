//! Whether obligations are met.

ghost use Rattle.std.specs.Prelude.{◌≡◌};
ghost use Rattle.ledger_obligations.specs.Obligations.{finished_in, given_up, is_library_owner, is_unmet, is_unmet_root, may_move, may_move_root, moved_to, owner_in, owner_of_root, with_owner};
ghost use Rattle.ledger_state.specs.Heaps.{object_at};

use ledger_state::{Heap, Object, Owner};
use must_call_sets::{must, must_of_type};
use program_model::{Program, VType};

/// Whether the object is finished, and a name of its set was not called on it.
pub fn is_unmet(x: &Object) -> bool
    ensures { result ≡ is_unmet x.now }
{
    x.finished && !x.must.is_subset(x.called)
}

/// Whether the obligation of the root is unmet.
pub fn is_unmet_root(heap: &Heap, root: Option<u64>) -> bool
    ensures { result ≡ is_unmet_root heap.now root }
{
    match root {
        None => false,
        Some(number) => match heap.object(number) {
            None => false,
            Some(x) => is_unmet(&x),
        },
    }
}

/// Whether the object with this number is finished.
pub fn is_finished(heap: &Heap, number: u64) -> bool
    ensures { result ≡ finished_in (object_at heap.now number) }
{
    match heap.object(number) {
        None => false,
        Some(x) => x.finished,
    }
}

/// The owner of the object with this number.
pub fn owner_of(heap: &Heap, number: u64) -> Owner
    ensures { result ≡ owner_in (object_at heap.now number) }
{
    match heap.object(number) {
        None => Owner::Unowned,
        Some(x) => x.owner,
    }
}

/// The owner of the root.
pub fn owner_of_root(heap: &Heap, root: Option<u64>) -> Owner
    ensures { result ≡ owner_of_root heap.now root }
{
    match root {
        None => Owner::Unowned,
        Some(number) => owner_of(heap, number),
    }
}

fn is_library_owner(owner: Owner) -> bool
    ensures { result ≡ is_library_owner owner }
{
    match owner {
        Owner::Library => true,
        Owner::Frame(_) | Owner::Field(_, _) | Owner::Released | Owner::Lost | Owner::Unowned =>
            false,
    }
}

/// Whether a root moves to a place of type `t`: it is finished, the library does not own it, and what must be called on the
/// objects of its class must be called on those of the type.
pub fn may_move(p: &Program, t: VType, x: &Object) -> bool
    ensures { result ≡ may_move p.now t x.now }
{
    x.finished && !is_library_owner(x.owner) && must(p, x.class).is_subset(must_of_type(p, t))
}

/// Whether the root moves to a place of type `t`.
pub fn may_move_root(p: &Program, heap: &Heap, t: VType, root: Option<u64>) -> bool
    ensures { result ≡ may_move_root p.now heap.now t root }
{
    match root {
        None => false,
        Some(number) => match heap.object(number) {
            None => false,
            Some(x) => may_move(p, t, &x),
        },
    }
}

/// The object with another owner.
pub fn with_owner(owner: Owner, x: Object) -> Object
    ensures { result ≡ with_owner owner x }
{
    Object { owner, ..x }
}

/// The object after a move to a place of type `t`, whose owner is `owner`.
pub fn moved_to(p: &Program, t: VType, owner: Owner, x: Object) -> Object
    ensures { result ≡ moved_to p.now t owner x }
{
    if may_move(p, t, &x) {
        with_owner(owner, x)
    } else {
        x
    }
}

/// The object after it was given up: released where it is met, and lost where it is not.
pub fn given_up(x: Object) -> Object
    ensures { result ≡ given_up x }
{
    if is_unmet(&x) {
        with_owner(Owner::Lost, x)
    } else {
        with_owner(Owner::Released, x)
    }
}
