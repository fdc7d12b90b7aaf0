//! The lists of the objects that frames may own.

ghost use Rattle.std.specs.Prelude.{◌≡◌, ◌+◌, ◌-◌, ◌<◌, ◌++◌, ◌∷◌, [], take, true, vec_len, IfOk, OnErr, OnOk};
ghost use Rattle.frame_owners.specs.FrameOwners.{HasAll, is_listed, list_at, lists_in};
ghost use Rattle.ledger_state.specs.Heaps.{has_number};

use ledger_state::Owner;
use rlc_base::NoMemory;
use std::alloc::Global;

// Puts the object at the end of the list of a frame.
fn add_at(lists: &mut Vec<Vec<u64>>, place: usize, number: u64) -> Result<(), NoMemory>
    requires { place < vec_len lists.old }
    ensures all { HasAll (lists_in lists.old.items) (lists_in lists.new.items) }
    ensures count { vec_len lists.new ≡ vec_len lists.old }
    ensures there { OnOk result (has_number (list_at (lists_in lists.new.items) (place + 1)) number ≡ true) }
{
    lists[place].push(number)?;
    Ok(())
}

/// Puts the object into the list of the frame that owns it, where a frame does. Says whether there is such a list. The lists lose nothing
/// where memory runs out.
pub fn add_owned(lists: &mut Vec<Vec<u64>>, owner: Owner, number: u64) -> Result<bool, NoMemory>
    ensures all { HasAll (lists_in lists.old.items) (lists_in lists.new.items) }
    ensures count { vec_len lists.new ≡ vec_len lists.old }
    ensures listed { IfOk result (λ b. b ≡ true → is_listed (lists_in lists.new.items) owner number ≡ true) }
{
    match owner {
        Owner::Frame(position) => {
            if position == 0 {
                return Ok(false);
            }
            if position > lists.len() as u64 {
                return Ok(false);
            }
            add_at(lists, (position - 1) as usize, number)?;
            Ok(true)
        }
        Owner::Field(_, _) | Owner::Library | Owner::Released | Owner::Lost | Owner::Unowned => {
            Ok(true)
        }
    }
}

/// A frame begins that owns nothing: its list is empty. Where memory runs out the lists stay.
pub fn add_list(alloc: Global, lists: &mut Vec<Vec<u64>>) -> Result<(), NoMemory>
    ensures lists { OnOk result (lists_in lists.new.items ≡ lists_in lists.old.items ++ [] ∷ []) }
    ensures kept { OnErr result (lists.new.items ≡ lists.old.items) }
{
    lists.push(Vec::new(alloc))?;
    Ok(())
}

/// The top frame is no more: so is its list.
pub fn drop_list(lists: &mut Vec<Vec<u64>>)
    ensures { lists_in lists.new.items ≡ take (vec_len lists.old - 1) (lists_in lists.old.items) }
{
    let _gone = lists.pop();
}
