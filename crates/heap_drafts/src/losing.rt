//! What no place holds any more, among some objects.

ghost use Rattle.std.specs.Prelude.{◌≡◌, ◌++◌, ◌∷◌, ℕ, Some, false, map, reverse, true, IfOk, IfSome, OnOk};
ghost use Rattle.heap_drafts.specs.Drafts.{ChangesAmong, Drafted, snapshots};
ghost use Rattle.heap_drafts.specs.LostObjects.{AllLost, LeftSettled};
ghost use Rattle.ledger_obligations.specs.Obligations.{held_in, lose};
ghost use Rattle.ledger_state.specs.declared.object.Object.{Object as Found};
ghost use Rattle.ledger_state.specs.Heaps.{has_number, object_at};
ghost use Rattle.ledger_state.specs.Locals.{held};
ghost use Rattle.settled_heaps.specs.Settled.{Settled, is_settled};

use crate::saved::{SavedObject, put_back, save};
use ledger_obligations::ActiveFrame;
use ledger_state::{Heap, Locals, Object, Owner};
use rlc_base::NoMemory;
use settled_heaps::is_settled;
use std::alloc::Global;

// The object as it is when no place of its frame holds it any more, unless it is an alias that a frame owns and that is unmet.
#[tactic(auto, using(crate::proofs::SettledLaws::left_settled, crate::proofs::SettledLaws::left_lost))]
fn lost_object(
    heap: &Heap,
    top: &Locals,
    below: &[ActiveFrame],
    number: u64,
    x: Object,
) -> Option<Object>
    ensures { IfSome result (λ y. LeftSettled heap.now (held top.now ∷ map held_in (reverse below.now)) number x y) }
{
    if is_settled(heap, top, below, number, &x) {
        return Some(x);
    }
    match x.link {
        None => Some(Object {
            owner: Owner::Lost,
            ..x
        }),
        Some(_) => None,
    }
}

// These objects when what no place holds any more is lost.
#[tactic(auto, using(crate::proofs::SettledLaws::lost_start, crate::proofs::SettledLaws::lost_none, crate::proofs::SettledLaws::lost_some))]
fn all_lost(
    alloc: Global,
    heap: &Heap,
    top: &Locals,
    below: &[ActiveFrame],
    numbers: &[u64],
) -> Result<Option<Vec<SavedObject>>, NoMemory>
    ensures { IfOk result (λ o. IfSome o (λ v. AllLost heap.now (held top.now ∷ map held_in (reverse below.now)) numbers.now v.items)) }
{
    let mut left = Vec::new(alloc);
    'each: for number in numbers {
        if let Some(x) = heap.object(*number) {
            match lost_object(heap, top, below, *number, x) {
                None => return Ok(None),
                Some(object) => left.push(SavedObject {
                    number: *number,
                    object,
                })?,
            }
        }
    }
    Ok(Some(left))
}

/// What no place holds any more is lost, where each object beside these is met or kept by its owner. The top frame stands apart from
/// those below it, of which that of `main` is the first. Says whether it was done: it was not where a frame owns an unmet alias, which
/// no step leaves.
pub fn lose_among(
    alloc: Global,
    heap: &mut Heap,
    top: &Locals,
    below: &[ActiveFrame],
    numbers: &[u64],
    saved: &mut Vec<SavedObject>,
) -> Result<bool, NoMemory>
    requires { (k : ℕ) (x : Found) → object_at heap.old k ≡ Some x → has_number numbers.now k ≡ false → is_settled heap.old (held top.now ∷ map held_in (reverse below.now)) k x ≡ true }
    ensures heap { IfOk result (λ b. b ≡ true → heap.new ≡ lose (held top.now ∷ map held_in (reverse below.now)) heap.old) }
    ensures settled { IfOk result (λ b. b ≡ true → Settled heap.new (held top.now ∷ map held_in (reverse below.now))) }
    ensures saved { IfOk result (λ b. b ≡ true → saved.new.items ≡ saved.old.items ++ snapshots heap.old numbers.now) }
    ensures among { IfOk result (λ b. b ≡ true → ChangesAmong numbers.now heap.old heap.new) }
    ensures drafted { Drafted saved.old.items heap.old saved.new.items heap.new }
{
    save(heap, numbers, saved)?;
    let found = all_lost(alloc, heap, top, below, numbers)?;
    match found {
        None => Ok(false),
        Some(left) => {
            put_back(heap, &left);
            Ok(true)
        }
    }
}
