//! The objects that have some roots.

ghost use Rattle.std.specs.Prelude.{◌≡◌, ◌++◌, ℕ, nat_eq, true, filter, IfOk, IfSome, OnOk};
ghost use Rattle.draft_stages.specs.Stages.{AliasesAmong, AllWithRoots, IndexedRest, saved_numbers};
ghost use Rattle.indexmap.specs.IndexSet.{insert_all};
ghost use Rattle.ledger_state.specs.Heaps.{has_number, is_reached};

use heap_drafts::{SavedObject, rising};
use indexmap::IndexSet;
use ledger_state::Heap;
use object_index::ObjectIndex;
use rlc_base::NoMemory;
use std::alloc::Global;

fn has_number(numbers: &[u64], number: u64) -> bool
    ensures { result ≡ has_number numbers.now number }
{
    numbers.iter().any(|k| *k == number)
}

fn is_reached(heap: &Heap, roots: &[u64], number: u64) -> bool
    ensures { result ≡ is_reached heap.now roots.now number }
{
    has_number(roots, heap.root(number))
}

// Puts the numbers of the saved objects behind the others.
pub(crate) fn add_saved(saved: &[SavedObject], into: &mut Vec<u64>) -> Result<(), NoMemory>
    ensures { OnOk result (into.new.items ≡ into.old.items ++ saved_numbers saved.now) }
{
    'each: for one in saved {
        into.push(one.number)?;
    }
    Ok(())
}

// Puts those of the numbers behind the others that are not among them.
fn add_numbers(numbers: &[u64], among: &mut IndexSet<u64>) -> Result<(), NoMemory>
    ensures { OnOk result (among.new.keys ≡ insert_all nat_eq among.old.keys numbers.now) }
{
    'each: for number in numbers {
        among.insert(*number)?;
    }
    Ok(())
}

// Puts the objects that the index has for each of the first ones behind them, and those for these, each once, until there are none. Says
// whether that is all.
fn add_aliases(index: &ObjectIndex, among: &mut IndexSet<u64>) -> Result<bool, NoMemory>
    ensures all { OnOk result ((k : ℕ) → has_number among.old.keys k ≡ true → has_number among.new.keys k ≡ true) }
    ensures closed { IfOk result (λ b. b ≡ true → AliasesAmong index.now among.new.keys) }
{
    'places: for place in 0..usize::MAX {
        if place >= among.len() {
            return Ok(true);
        }
        let at = among.as_slice()[place];
        let aliases = index.aliases_of(at);
        add_numbers(aliases, among)?;
    }
    Ok(false)
}

// The numbers, and those of all objects that the index has for them, each once, unless there are too many.
fn with_aliases(
    alloc: Global,
    index: &ObjectIndex,
    numbers: &[u64],
) -> Result<Option<Vec<u64>>, NoMemory>
    ensures all { IfOk result (λ o. IfSome o (λ v. (k : ℕ) → has_number numbers.now k ≡ true → has_number v.items k ≡ true)) }
    ensures closed { IfOk result (λ o. IfSome o (λ v. AliasesAmong index.now v.items)) }
{
    let mut among = IndexSet::new(alloc);
    add_numbers(numbers, &mut among)?;
    if !add_aliases(index, &mut among)? {
        return Ok(None);
    }
    let all = Vec::from_slice(alloc, among.as_slice())?;
    Ok(Some(all))
}

// Those of the objects that have one of the roots.
fn with_roots(
    alloc: Global,
    heap: &Heap,
    roots: &[u64],
    numbers: &[u64],
) -> Result<Vec<u64>, NoMemory>
    ensures { IfOk result (λ v. v.items ≡ filter (is_reached heap.now roots.now) numbers.now) }
{
    let mut found = Vec::new(alloc);
    'each: for number in numbers {
        if is_reached(heap, roots, *number) {
            found.push(*number)?;
        }
    }
    Ok(found)
}

// The objects that have one of the roots, by their numbers, where the index knows of all that were not saved to what they are linked.
fn objects_with(
    alloc: Global,
    heap: &Heap,
    index: &ObjectIndex,
    roots: &[u64],
    saved: &[SavedObject],
) -> Result<Option<Vec<u64>>, NoMemory>
    requires { IndexedRest index.now saved.now heap.now }
    ensures { IfOk result (λ o. IfSome o (λ v. AllWithRoots heap.now roots.now v.items)) }
{
    let mut first = Vec::from_slice(alloc, roots)?;
    add_saved(saved, &mut first)?;
    let all = with_aliases(alloc, index, &first)?;
    match all {
        None => Ok(None),
        Some(numbers) => {
            let once = rising(alloc, numbers)?;
            let found = with_roots(alloc, heap, roots, &once)?;
            Ok(Some(found))
        }
    }
}

/// The same; where there is no root, none is looked for.
pub(crate) fn reached_objects(
    alloc: Global,
    heap: &Heap,
    index: &ObjectIndex,
    roots: &[u64],
    saved: &[SavedObject],
) -> Result<Option<Vec<u64>>, NoMemory>
    requires { IndexedRest index.now saved.now heap.now }
    ensures { IfOk result (λ o. IfSome o (λ v. AllWithRoots heap.now roots.now v.items)) }
{
    if roots.is_empty() {
        return Ok(Some(Vec::new(alloc)));
    }
    objects_with(alloc, heap, index, roots, saved)
}
