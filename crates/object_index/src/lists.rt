//! Lists of numbers, one for each object.

ghost use Rattle.std.specs.Prelude.{◌≡◌, ◌+◌, ◌<◌, ◌≤◌, IfOk, OnOk, true, vec_len};
ghost use Rattle.frame_owners.specs.FrameOwners.{HasAll, list_at, lists_in};
ghost use Rattle.ledger_state.specs.Heaps.{has_number};

use rlc_base::NoMemory;
use std::alloc::Global;

/// The list of the object with this number.
pub(crate) fn list_of(lists: &[Vec<u64>], number: u64) -> &[u64]
    ensures { result.now ≡ list_at (lists_in lists.now) number }
{
    if number == 0 {
        return &[];
    }
    match lists.get((number - 1) as usize) {
        None => &[],
        Some(list) => list.as_slice(),
    }
}

// So many empty lists more.
fn add_empty(alloc: Global, lists: &mut Vec<Vec<u64>>, count: usize) -> Result<(), NoMemory>
    ensures all { HasAll (lists_in lists.old.items) (lists_in lists.new.items) }
    ensures more { OnOk result (vec_len lists.new ≡ vec_len lists.old + count) }
{
    for _list in 0..count {
        lists.push(Vec::new(alloc))?;
    }
    Ok(())
}

// There are so many lists at least.
fn grow(alloc: Global, lists: &mut Vec<Vec<u64>>, count: usize) -> Result<(), NoMemory>
    ensures all { HasAll (lists_in lists.old.items) (lists_in lists.new.items) }
    ensures count { OnOk result (count ≤ vec_len lists.new) }
{
    if count > lists.len() {
        let missing = count - lists.len();
        add_empty(alloc, lists, missing)?;
    }
    Ok(())
}

// Puts the number at the end of a list.
fn add_at(lists: &mut Vec<Vec<u64>>, place: usize, number: u64) -> Result<(), NoMemory>
    requires { place < vec_len lists.old }
    ensures all { HasAll (lists_in lists.old.items) (lists_in lists.new.items) }
    ensures there { OnOk result (has_number (list_at (lists_in lists.new.items) (place + 1)) number ≡ true) }
{
    lists[place].push(number)?;
    Ok(())
}

/// Puts a number into the list of the object with the number `object`. Says whether there can be such an object. The lists lose nothing
/// where memory runs out.
pub(crate) fn add_number(
    alloc: Global,
    lists: &mut Vec<Vec<u64>>,
    object: u64,
    number: u64,
) -> Result<bool, NoMemory>
    ensures all { HasAll (lists_in lists.old.items) (lists_in lists.new.items) }
    ensures there { IfOk result (λ b. b ≡ true → has_number (list_at (lists_in lists.new.items) object) number ≡ true) }
{
    if object == 0 {
        return Ok(false);
    }
    grow(alloc, lists, object as usize)?;
    add_at(lists, (object - 1) as usize, number)?;
    Ok(true)
}
