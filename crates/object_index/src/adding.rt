//! Objects that are put into the index.

ghost use Rattle.std.specs.Prelude.{◌≡◌, IfOk, true};
ghost use Rattle.frame_owners.specs.FrameOwners.{HasAll, lists_in};
ghost use Rattle.ledger_state.specs.Heaps.{linked_by};
ghost use Rattle.object_index.specs.ObjectIndexes.{HasMore, Indexed, is_alias, is_content, is_free, is_indexed};

use crate::index::ObjectIndex;
use crate::lists::add_number;
use ledger_state::{Heap, Link, Object, Owner};
use rlc_base::NoMemory;
use std::alloc::Global;

// Puts the object into the list of that whose field owns it, where a field does. Says whether there is such a list.
fn add_content(
    alloc: Global,
    contents: &mut Vec<Vec<u64>>,
    owner: Owner,
    number: u64,
) -> Result<bool, NoMemory>
    ensures all { HasAll (lists_in contents.old.items) (lists_in contents.new.items) }
    ensures there { IfOk result (λ b. b ≡ true → is_content (lists_in contents.new.items) owner number ≡ true) }
{
    match owner {
        Owner::Field(holder, _) => add_number(alloc, contents, holder, number),
        Owner::Frame(_) | Owner::Library | Owner::Released | Owner::Lost | Owner::Unowned => {
            Ok(true)
        }
    }
}

// Whether no frame and no field is the owner.
fn is_free(owner: Owner) -> bool
    ensures { result ≡ is_free owner }
{
    match owner {
        Owner::Frame(_) | Owner::Field(_, _) => false,
        Owner::Library | Owner::Released | Owner::Lost | Owner::Unowned => true,
    }
}

fn linked_by(link: Option<Link>) -> Option<u64>
    ensures { result ≡ linked_by link }
{
    match link {
        None => None,
        Some(link) => Some(link.to),
    }
}

// Puts the object into the list of that to which it is linked, where it is linked to one that was made before it, and no frame and no
// field owns it. Says whether it could.
fn add_alias(
    alloc: Global,
    aliases: &mut Vec<Vec<u64>>,
    owner: Owner,
    link: Option<u64>,
    number: u64,
) -> Result<bool, NoMemory>
    ensures all { HasAll (lists_in aliases.old.items) (lists_in aliases.new.items) }
    ensures there { IfOk result (λ b. b ≡ true → is_alias (lists_in aliases.new.items) owner link number ≡ true) }
{
    match link {
        None => Ok(true),
        Some(to) => {
            if to >= number {
                return Ok(false);
            }
            if !is_free(owner) {
                return Ok(false);
            }
            add_number(alloc, aliases, to, number)
        }
    }
}

/// Puts the object, which has this number, into the lists of that whose field owns it and of that to which it is linked. Says whether the
/// index has it then: it has not where the object is linked to one that was not made before it, or is linked and belongs to a frame or a
/// field. The index loses nothing where memory runs out.
pub fn add_object(
    alloc: Global,
    index: &mut ObjectIndex,
    number: u64,
    object: &Object,
) -> Result<bool, NoMemory>
    ensures all { HasMore index.old index.new }
    ensures there { IfOk result (λ b. b ≡ true → is_indexed index.new number object.now ≡ true) }
{
    if !add_content(alloc, &mut index.contents, object.owner, number)? {
        return Ok(false);
    }
    add_alias(
        alloc,
        &mut index.aliases,
        object.owner,
        linked_by(object.link),
        number,
    )
}

// Whether both have the same owner and are linked to the same object.
fn is_alike(x: &Object, y: &Object) -> bool
    ensures owner { result ≡ true → x.now.owner ≡ y.now.owner }
    ensures link { result ≡ true → linked_by x.now.link ≡ linked_by y.now.link }
{
    x.owner == y.owner && linked_by(x.link) == linked_by(y.link)
}

/// The same for what the object with this number becomes; nothing is put where its owner and its link stay.
pub fn change_object(
    alloc: Global,
    index: &mut ObjectIndex,
    heap: &Heap,
    number: u64,
    object: &Object,
) -> Result<bool, NoMemory>
    requires { Indexed index.old heap.now }
    ensures all { HasMore index.old index.new }
    ensures there { IfOk result (λ b. b ≡ true → is_indexed index.new number object.now ≡ true) }
{
    if let Some(x) = heap.object(number) {
        if is_alike(&x, object) {
            return Ok(true);
        }
    }
    add_object(alloc, index, number, object)
}
