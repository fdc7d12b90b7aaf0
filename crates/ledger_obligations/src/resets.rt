//! Obligations that are created anew.

ghost use Rattle.std.specs.Prelude.{◌≡◌, ◌+◌, length, IfOk, OnErr, OnOk, []};
ghost use Rattle.ledger_obligations.specs.Obligations.{emptied, finished_holder, reached, reached_within, reset_in, reset_roots, stops};
ghost use Rattle.ledger_state.specs.Heaps.{changed_from, has_number, is_reached, root};

use crate::unmet::{is_finished, owner_of};
use ledger_state::{Heap, Object, Owner};
use must_call_sets::must;
use program_model::Program;
use rlc_base::{NameSet, NoMemory};
use std::alloc::Global;

// The finished object whose field is the owner.
fn finished_holder(heap: &Heap, owner: Owner) -> Option<u64>
    ensures { result ≡ finished_holder heap.now owner }
{
    match owner {
        Owner::Field(holder, _) => {
            if is_finished(heap, holder) {
                Some(holder)
            } else {
                None
            }
        }
        Owner::Frame(_) | Owner::Library | Owner::Released | Owner::Lost | Owner::Unowned => None,
    }
}

fn has_number(numbers: &[u64], number: u64) -> bool
    ensures { result ≡ has_number numbers.now number }
{
    numbers.iter().any(|found| *found == number)
}

// Whether the way upwards ends at this root: it was seen on the way, or is not finished.
fn stops(heap: &Heap, seen: &[u64], root: u64) -> bool
    ensures { result ≡ stops heap.now seen.now root }
{
    has_number(seen, root) || !is_finished(heap, root)
}

fn reached_from(alloc: Global, heap: &Heap, start: u64) -> Result<Vec<u64>, NoMemory>
    ensures { IfOk result (λ v. v.items ≡ reached_within (length heap.now.objects + 1) heap.now [] start) }
{
    let mut seen = Vec::new(alloc);
    let mut number = start;
    'upwards: for _turn in 0..heap.objects.len() + 1 {
        let root = heap.root(number);
        if stops(heap, &seen, root) {
            return Ok(seen);
        }
        seen.push(root)?;
        match finished_holder(heap, owner_of(heap, root)) {
            None => return Ok(seen),
            Some(holder) => number = holder,
        }
    }
    Ok(seen)
}

/// The roots that a reset of the object reaches: its root, where that is finished, and upwards the root of the finished
/// object whose field owns it, each once.
pub fn reached(alloc: Global, heap: &Heap, start: Option<u64>) -> Result<Vec<u64>, NoMemory>
    ensures { IfOk result (λ v. v.items ≡ reached heap.now start) }
{
    match start {
        None => Ok(Vec::new(alloc)),
        Some(number) => reached_from(alloc, heap, number),
    }
}

// The object without a called name; a root has the set of its class.
fn emptied(p: &Program, is_root: bool, x: Object) -> Object
    ensures { result ≡ emptied p.now is_root x }
{
    let called = NameSet::empty();
    if is_root {
        Object {
            must: must(p, x.class),
            called,
            ..x
        }
    } else {
        Object { called, ..x }
    }
}

// The object after the reset of these roots; `before` is the heap before it.
fn reset_in(p: &Program, before: &Heap, roots: &[u64], number: u64, x: Object) -> Object
    ensures { result ≡ reset_in p.now before.now roots.now number x }
{
    let root = before.root(number);
    if has_number(roots, root) {
        emptied(p, root == number, x)
    } else {
        x
    }
}

fn reset_each(p: &Program, before: &Heap, roots: &[u64], objects: &mut [Object])
    ensures { objects.new ≡ changed_from 1 (reset_in p.now before.now roots.now) objects.old }
{
    'each: for place in 0..objects.len() {
        objects[place] = reset_in(p, before, roots, place as u64 + 1, objects[place]);
    }
}

/// The obligations of these roots are created anew.
pub fn reset_roots(
    alloc: Global,
    p: &Program,
    roots: &[u64],
    heap: &mut Heap,
) -> Result<(), NoMemory>
    ensures reset { OnOk result (heap.new ≡ reset_roots p.now roots.now heap.old) }
    ensures kept { OnErr result (heap.new ≡ heap.old) }
{
    let before = heap.copy(alloc)?;
    reset_each(p, &before, roots, &mut heap.objects);
    Ok(())
}
