//! What the places of frames hold.

ghost use Rattle.std.specs.Prelude.{◌≡◌, ◌∷◌, Some, map, reverse};
ghost use Rattle.std.specs.List.{list_any};
ghost use Rattle.ledger_obligations.specs.Obligations.{held_at, held_in, holds, is_frame};
ghost use Rattle.ledger_state.specs.Heaps.{root_of, same_root};
ghost use Rattle.ledger_state.specs.Locals.{held};
ghost use Rattle.settled_heaps.specs.Settled.{drops, drops_any, drops_object};

use ledger_obligations::{ActiveFrame, is_unmet};
use ledger_state::{Heap, Locals, Object, Owner, Value, same_root};

fn has_root(heap: &Heap, values: &[Value], root: u64) -> bool
    ensures { result ≡ list_any (λ v. same_root (root_of heap.now v) (Some root)) values.now }
{
    values
        .iter()
        .any(|v| same_root(heap.root_of(*v), Some(root)))
}

// Whether a place of the frame holds an object with the root.
fn holds(heap: &Heap, locals: &Locals, root: u64) -> bool
    ensures { result ≡ holds heap.now (held locals.now) root }
{
    same_root(heap.root_of(locals.this), Some(root))
        || has_root(heap, locals.variables.as_slice(), root)
        || has_root(heap, locals.temps.as_slice(), root)
}

fn frame_has(heap: &Heap, frame: &ActiveFrame, root: u64) -> bool
    ensures { result ≡ holds heap.now (held_in frame.now) root }
{
    holds(heap, &frame.locals, root)
}

/// Whether the frame at the position, counted from 1 at the bottom, holds the root. The top one stands apart from those below
/// it.
pub(crate) fn frame_holds(
    heap: &Heap,
    top: &Locals,
    below: &[ActiveFrame],
    position: u64,
    root: u64,
) -> bool
    ensures { result ≡ holds heap.now (held_at (held top.now ∷ map held_in (reverse below.now)) position) root }
{
    let count = below.len() as u64;
    if position == count + 1 {
        return holds(heap, top, root);
    }
    if position == 0 {
        return false;
    }
    if position > count {
        return false;
    }
    frame_has(heap, &below[(position - 1) as usize], root)
}

fn is_of_frame(owner: Owner, position: u64) -> bool
    ensures { result ≡ is_frame owner position }
{
    match owner {
        Owner::Frame(found) => found == position,
        Owner::Field(_, _) | Owner::Library | Owner::Released | Owner::Lost | Owner::Unowned =>
            false,
    }
}

// Whether the object, which is unmet and belongs to the frame at the position, is in none of its places.
fn drops_object(heap: &Heap, position: u64, now: &Locals, root: u64, x: &Object) -> bool
    ensures { result ≡ drops_object heap.now position (held now.now) root (Some x.now) }
{
    is_unmet(x) && is_of_frame(x.owner, position) && !holds(heap, now, root)
}

fn drops(heap: &Heap, position: u64, now: &Locals, value: Value) -> bool
    ensures { result ≡ drops heap.now position (held now.now) value }
{
    match heap.root_of(value) {
        None => false,
        Some(root) => match heap.object(root) {
            None => false,
            Some(x) => drops_object(heap, position, now, root, &x),
        },
    }
}

fn drops_among(heap: &Heap, position: u64, now: &Locals, before: &[Value]) -> bool
    ensures { result ≡ list_any (drops heap.now position (held now.now)) before.now }
{
    before.iter().any(|v| drops(heap, position, now, *v))
}

/// Whether the frame at the position, whose places held `before` and hold `now`, drops the root of a value: the object is unmet and
/// belongs to the frame, and none of its places holds it.
pub fn drops_any(heap: &Heap, position: u64, before: &Locals, now: &Locals) -> bool
    ensures { result ≡ drops_any heap.now position (held before.now) (held now.now) }
{
    drops(heap, position, now, before.this)
        || drops_among(heap, position, now, before.variables.as_slice())
        || drops_among(heap, position, now, before.temps.as_slice())
}
