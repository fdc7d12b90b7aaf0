//! What no place holds any more.

ghost use Rattle.std.specs.Prelude.{◌≡◌, ◌∷◌, Some, map, reverse, OnErr, OnOk};
ghost use Rattle.std.specs.List.{list_any};
ghost use Rattle.ledger_obligations.specs.Obligations.{held_in, holds, lose, lost_object, owner_holds};
ghost use Rattle.ledger_state.specs.Heaps.{changed_from, root_of, same_root};
ghost use Rattle.ledger_state.specs.Locals.{held};

use crate::active_frame::ActiveFrame;
use crate::unmet::{is_unmet, with_owner};
use ledger_state::{Heap, Locals, Object, Owner, Value, same_root};
use rlc_base::NoMemory;
use std::alloc::Global;

fn has_root(heap: &Heap, values: &[Value], root: u64) -> bool
    ensures { result ≡ list_any (λ v. same_root (root_of heap.now v) (Some root)) values.now }
{
    values
        .iter()
        .any(|v| same_root(heap.root_of(*v), Some(root)))
}

// Whether a place of the frame holds an object with the root.
fn holds(heap: &Heap, locals: &Locals, root: u64) -> bool
    ensures { result ≡ holds heap.now (held locals.now) root }
{
    same_root(heap.root_of(locals.this), Some(root))
        || has_root(heap, locals.variables.as_slice(), root)
        || has_root(heap, locals.temps.as_slice(), root)
}

fn frame_has(heap: &Heap, frame: &ActiveFrame, root: u64) -> bool
    ensures { result ≡ holds heap.now (held_in frame.now) root }
{
    holds(heap, &frame.locals, root)
}

// Whether the frame at the position, counted from 1 at the bottom, holds the root; the top one stands apart.
fn frame_holds(heap: &Heap, top: &Locals, below: &[ActiveFrame], position: u64, root: u64) -> bool
    ensures { result ≡ owner_holds heap.now (held top.now ∷ map held_in (reverse below.now)) (Owner.Frame position) root }
{
    let count = below.len() as u64;
    if position == count + 1 {
        return holds(heap, top, root);
    }
    if position == 0 {
        return false;
    }
    if position > count {
        return false;
    }
    frame_has(heap, &below[(position - 1) as usize], root)
}

// Whether the owner, where it is a frame, holds the root.
fn owner_holds(heap: &Heap, top: &Locals, below: &[ActiveFrame], owner: Owner, root: u64) -> bool
    ensures { result ≡ owner_holds heap.now (held top.now ∷ map held_in (reverse below.now)) owner root }
{
    match owner {
        Owner::Frame(position) => frame_holds(heap, top, below, position, root),
        Owner::Field(_, _) | Owner::Library | Owner::Released | Owner::Lost | Owner::Unowned =>
            true,
    }
}

fn lost_object(before: &Heap, top: &Locals, below: &[ActiveFrame], number: u64, x: Object) -> Object
    ensures { result ≡ lost_object before.now (held top.now ∷ map held_in (reverse below.now)) number x }
{
    if is_unmet(&x) && !owner_holds(before, top, below, x.owner, number) {
        with_owner(Owner::Lost, x)
    } else {
        x
    }
}

fn lose_each(before: &Heap, top: &Locals, below: &[ActiveFrame], objects: &mut [Object])
    ensures { objects.new ≡ changed_from 1 (lost_object before.now (held top.now ∷ map held_in (reverse below.now))) objects.old }
{
    'each: for place in 0..objects.len() {
        objects[place] = lost_object(before, top, below, place as u64 + 1, objects[place]);
    }
}

/// After a step, an unmet object that no place of its frame holds is lost. The top frame stands apart from those below it,
/// of which that of `main` is the first.
pub fn lose(
    alloc: Global,
    top: &Locals,
    below: &[ActiveFrame],
    heap: &mut Heap,
) -> Result<(), NoMemory>
    ensures lost { OnOk result (heap.new ≡ lose (held top.now ∷ map held_in (reverse below.now)) heap.old) }
    ensures kept { OnErr result (heap.new ≡ heap.old) }
{
    let before = heap.copy(alloc)?;
    lose_each(&before, top, below, &mut heap.objects);
    Ok(())
}
