//! The stages of a store into an owning field.

ghost use Rattle.std.specs.Prelude.{◌≡◌, ◌++◌, true, IfOk, IfSome, OnOk};
ghost use Rattle.draft_lines.specs.DraftLines.{AllOfHeap, leak_entries_of};
ghost use Rattle.draft_stores.specs.OwningStores.{is_zero};
ghost use Rattle.heap_drafts.specs.Drafts.{Drafted, snapshots};
ghost use Rattle.ledger_steps.specs.Entries.{leak_entries, owner_entries};
ghost use Rattle.ledger_obligations.specs.Obligations.{given_up, moved_where, released_where, roots_where};
ghost use Rattle.ledger_state.specs.declared.entry.LeakWord.TheVariants as words;
ghost use Rattle.ledger_state.specs.Heaps.{change_some};
ghost use Rattle.program_model.specs.Lookups.{optional};

use draft_lines::{Leak, add_leaks, add_owner_lines};
use draft_stages::changes_after;
use heap_drafts::{SavedObject, save};
use ledger_obligations::{given_up, reached, with_owner};
use ledger_state::{Entry, Heap, LeakWord, Owner};
use program_model::Program;
use rlc_base::{NoMemory, Pos};
use std::alloc::Global;

// The root, where there is one, is given up, if it is released.
#[tactic(auto, using(ledger_obligations::proofs::ChangeLaws::change_absent))]
fn release(released: bool, root: Option<u64>, heap: &mut Heap)
    ensures { heap.new ≡ released_where released root heap.old }
{
    if released {
        if let Some(number) = root {
            if let Some(x) = heap.object(number) {
                heap.put(number, given_up(x));
            }
        }
    }
}

// The root, where there is one, gets this owner, if it moves.
#[tactic(auto, using(ledger_obligations::proofs::ChangeLaws::change_absent))]
fn own(moved: bool, root: Option<u64>, owner: Owner, heap: &mut Heap)
    ensures { heap.new ≡ moved_where moved root owner heap.old }
{
    if moved {
        if let Some(number) = root {
            if let Some(x) = heap.object(number) {
                heap.put(number, with_owner(owner, x));
            }
        }
    }
}

// Saves the root, where there is one.
fn save_root(heap: &Heap, root: Option<u64>, saved: &mut Vec<SavedObject>) -> Result<(), NoMemory>
    ensures ok { OnOk result (saved.new.items ≡ saved.old.items ++ snapshots heap.now (optional root)) }
    ensures drafted { Drafted saved.old.items heap.now saved.new.items heap.now }
{
    match root {
        None => save(heap, &[], saved),
        Some(number) => save(heap, &[number], saved),
    }
}

fn is_zero(root: Option<u64>) -> bool
    ensures { result ≡ is_zero root }
{
    match root {
        None => false,
        Some(number) => number == 0,
    }
}

/// The root is given up, if it is released. The leaks; none where the number of the root is 0, which no object has.
pub(crate) fn draft_release(
    alloc: Global,
    p: &Program,
    pos: Pos,
    released: bool,
    root: Option<u64>,
    heap: &mut Heap,
    saved: &mut Vec<SavedObject>,
) -> Result<Option<Vec<Leak>>, NoMemory>
    ensures heap { IfOk result (λ o. IfSome o (λ v. heap.new ≡ released_where released root heap.old)) }
    ensures leaks { IfOk result (λ o. IfSome o (λ v. leak_entries_of v.items ≡ leak_entries p.now words.Overwritten pos heap.old (released_where released root heap.old))) }
    ensures all { IfOk result (λ o. IfSome o (λ v. AllOfHeap heap.new v.items)) }
    ensures drafted { Drafted saved.old.items heap.old saved.new.items heap.new }
{
    if is_zero(root) {
        return Ok(None);
    }
    let from = saved.len();
    save_root(heap, root, saved)?;
    release(released, root, heap);
    let rows = changes_after(alloc, heap, saved, from)?;
    let mut leaks = Vec::new(alloc);
    add_leaks(p, LeakWord::Overwritten, pos, &rows, &mut leaks)?;
    Ok(Some(leaks))
}

/// The root gets this owner, if it moves. Puts the lines behind the others. Says whether it was done: it was not where the number of the
/// root is 0, which no object has.
pub(crate) fn draft_own(
    alloc: Global,
    p: &Program,
    pos: Pos,
    moved: bool,
    root: Option<u64>,
    owner: Owner,
    heap: &mut Heap,
    saved: &mut Vec<SavedObject>,
    lines: &mut Vec<Entry>,
) -> Result<bool, NoMemory>
    ensures heap { IfOk result (λ b. b ≡ true → heap.new ≡ moved_where moved root owner heap.old) }
    ensures lines { IfOk result (λ b. b ≡ true → lines.new.items ≡ lines.old.items ++ owner_entries p.now pos heap.old (moved_where moved root owner heap.old)) }
    ensures drafted { Drafted saved.old.items heap.old saved.new.items heap.new }
{
    if is_zero(root) {
        return Ok(false);
    }
    let from = saved.len();
    save_root(heap, root, saved)?;
    own(moved, root, owner, heap);
    let rows = changes_after(alloc, heap, saved, from)?;
    add_owner_lines(p, pos, &rows, lines)?;
    Ok(true)
}

/// The roots that a reset of the holder reaches, where it is reset.
pub(crate) fn roots_of_holder(
    alloc: Global,
    heap: &Heap,
    reset: bool,
    holder: u64,
) -> Result<Vec<u64>, NoMemory>
    ensures { IfOk result (λ v. v.items ≡ roots_where reset heap.now holder) }
{
    if reset {
        reached(alloc, heap, Some(holder))
    } else {
        Ok(Vec::new(alloc))
    }
}
