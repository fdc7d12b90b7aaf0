//! Changes of many objects, of which only some are looked at.

ghost use Rattle.std.specs.Prelude.{◌≡◌, ◌++◌, ℕ, Some, false, true, IfOk, OnOk};
ghost use Rattle.heap_drafts.specs.Drafts.{ChangesAmong, Drafted, renewed, snapshots};
ghost use Rattle.ledger_obligations.specs.Obligations.{emptied, end_frame, end_holder, given_up_by_frame, given_up_by_holder, is_frame, is_held_by, reset_in, reset_roots};
ghost use Rattle.ledger_state.specs.declared.object.Object.{Object as Found};
ghost use Rattle.ledger_state.specs.Heaps.{has_number, object_at};

use crate::saved::{SavedObject, put_back, save};
use ledger_obligations::given_up;
use ledger_state::{Heap, Object, Owner};
use must_call_sets::must;
use program_model::Program;
use rlc_base::{NameSet, NoMemory};
use std::alloc::Global;

fn is_of_frame(owner: Owner, position: u64) -> bool
    ensures { result ≡ is_frame owner position }
{
    match owner {
        Owner::Frame(found) => found == position,
        Owner::Field(_, _) | Owner::Library | Owner::Released | Owner::Lost | Owner::Unowned =>
            false,
    }
}

fn is_of_holder(owner: Owner, holder: u64) -> bool
    ensures { result ≡ is_held_by owner holder }
{
    match owner {
        Owner::Field(found, _) => found == holder,
        Owner::Frame(_) | Owner::Library | Owner::Released | Owner::Lost | Owner::Unowned => false,
    }
}

// The object as the frame at the position leaves it.
fn left_by_frame(position: u64, number: u64, x: Object) -> Object
    ensures { result ≡ given_up_by_frame position number x }
{
    if is_of_frame(x.owner, position) {
        given_up(x)
    } else {
        x
    }
}

// The object as the fields of the holder leave it.
fn left_by_holder(holder: u64, number: u64, x: Object) -> Object
    ensures { result ≡ given_up_by_holder holder number x }
{
    if is_of_holder(x.owner, holder) {
        given_up(x)
    } else {
        x
    }
}

fn has_number(numbers: &[u64], number: u64) -> bool
    ensures { result ≡ has_number numbers.now number }
{
    numbers.iter().any(|k| *k == number)
}

// The object without a called name; a root has the set of its class.
fn emptied(p: &Program, is_root: bool, x: Object) -> Object
    ensures { result ≡ emptied p.now is_root x }
{
    let called = NameSet::empty();
    if is_root {
        Object {
            must: must(p, x.class),
            called,
            ..x
        }
    } else {
        Object { called, ..x }
    }
}

// The object after the reset of these roots.
fn reset_in(p: &Program, heap: &Heap, roots: &[u64], number: u64, x: Object) -> Object
    ensures { result ≡ reset_in p.now heap.now roots.now number x }
{
    let root = heap.root(number);
    if has_number(roots, root) {
        emptied(p, root == number, x)
    } else {
        x
    }
}

// These objects as the frame leaves them.
fn all_left_by_frame(
    alloc: Global,
    heap: &Heap,
    position: u64,
    numbers: &[u64],
) -> Result<Vec<SavedObject>, NoMemory>
    ensures { IfOk result (λ v. v.items ≡ renewed (given_up_by_frame position) heap.now numbers.now) }
{
    let mut left = Vec::new(alloc);
    'each: for number in numbers {
        if let Some(x) = heap.object(*number) {
            left.push(SavedObject {
                number: *number,
                object: left_by_frame(position, *number, x),
            })?;
        }
    }
    Ok(left)
}

// These objects as the holder's fields leave them.
fn all_left_by_holder(
    alloc: Global,
    heap: &Heap,
    holder: u64,
    numbers: &[u64],
) -> Result<Vec<SavedObject>, NoMemory>
    ensures { IfOk result (λ v. v.items ≡ renewed (given_up_by_holder holder) heap.now numbers.now) }
{
    let mut left = Vec::new(alloc);
    'each: for number in numbers {
        if let Some(x) = heap.object(*number) {
            left.push(SavedObject {
                number: *number,
                object: left_by_holder(holder, *number, x),
            })?;
        }
    }
    Ok(left)
}

// These objects after the reset of the roots.
fn all_reset(
    alloc: Global,
    p: &Program,
    heap: &Heap,
    roots: &[u64],
    numbers: &[u64],
) -> Result<Vec<SavedObject>, NoMemory>
    ensures { IfOk result (λ v. v.items ≡ renewed (reset_in p.now heap.now roots.now) heap.now numbers.now) }
{
    let mut left = Vec::new(alloc);
    'each: for number in numbers {
        if let Some(x) = heap.object(*number) {
            left.push(SavedObject {
                number: *number,
                object: reset_in(p, heap, roots, *number, x),
            })?;
        }
    }
    Ok(left)
}

/// The frame at the position ends, where no object beside these is its own.
pub fn end_frame_among(
    alloc: Global,
    heap: &mut Heap,
    position: u64,
    numbers: &[u64],
    saved: &mut Vec<SavedObject>,
) -> Result<(), NoMemory>
    requires { (k : ℕ) (x : Found) → object_at heap.old k ≡ Some x → has_number numbers.now k ≡ false → given_up_by_frame position k x ≡ x }
    ensures heap { OnOk result (heap.new ≡ end_frame position heap.old) }
    ensures saved { OnOk result (saved.new.items ≡ saved.old.items ++ snapshots heap.old numbers.now) }
    ensures among { OnOk result (ChangesAmong numbers.now heap.old heap.new) }
    ensures drafted { Drafted saved.old.items heap.old saved.new.items heap.new }
{
    save(heap, numbers, saved)?;
    let left = all_left_by_frame(alloc, heap, position, numbers)?;
    put_back(heap, &left);
    Ok(())
}

/// The fields of the holder, where there is one, give up what they own, where no object beside these is their own.
pub fn end_holder_among(
    alloc: Global,
    heap: &mut Heap,
    holder: u64,
    numbers: &[u64],
    saved: &mut Vec<SavedObject>,
) -> Result<(), NoMemory>
    requires { (k : ℕ) (x : Found) → object_at heap.old k ≡ Some x → has_number numbers.now k ≡ false → given_up_by_holder holder k x ≡ x }
    ensures heap { OnOk result (heap.new ≡ end_holder (Some holder) heap.old) }
    ensures saved { OnOk result (saved.new.items ≡ saved.old.items ++ snapshots heap.old numbers.now) }
    ensures among { OnOk result (ChangesAmong numbers.now heap.old heap.new) }
    ensures drafted { Drafted saved.old.items heap.old saved.new.items heap.new }
{
    save(heap, numbers, saved)?;
    let left = all_left_by_holder(alloc, heap, holder, numbers)?;
    put_back(heap, &left);
    Ok(())
}

/// The obligations of the roots are created anew, where no object beside these has one of the roots.
pub fn reset_among(
    alloc: Global,
    p: &Program,
    heap: &mut Heap,
    roots: &[u64],
    numbers: &[u64],
    saved: &mut Vec<SavedObject>,
) -> Result<(), NoMemory>
    requires { (k : ℕ) (x : Found) → object_at heap.old k ≡ Some x → has_number numbers.now k ≡ false → reset_in p.now heap.old roots.now k x ≡ x }
    ensures heap { OnOk result (heap.new ≡ reset_roots p.now roots.now heap.old) }
    ensures saved { OnOk result (saved.new.items ≡ saved.old.items ++ snapshots heap.old numbers.now) }
    ensures among { OnOk result (ChangesAmong numbers.now heap.old heap.new) }
    ensures drafted { Drafted saved.old.items heap.old saved.new.items heap.new }
{
    save(heap, numbers, saved)?;
    let left = all_reset(alloc, p, heap, roots, numbers)?;
    put_back(heap, &left);
    Ok(())
}
