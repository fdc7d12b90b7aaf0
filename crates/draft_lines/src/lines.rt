//! The lines that an object has one of at most in a step: new owners, resets and births.

ghost use Rattle.std.specs.Prelude.{◌≡◌, ◌++◌, OnOk};
ghost use Rattle.program_model.specs.Lookups.{optional};
ghost use Rattle.ledger_entries.specs.Entries.{birth, birth_line, heavy_lines, is_owned, owner_before, owner_line, same_owner, was_finished};
ghost use Rattle.draft_lines.specs.DraftLines.{birth_changes, owner_changes, reset_changes};

use crate::change::ObjectChange;
use ledger_state::{Entry, Link, Object, Owner};
use must_call_sets::is_heavy_class;
use program_model::{ClassId, Program};
use rlc_base::{NoMemory, Pos};

// Objects whose class has no must-call set have no lines.
fn push_line(
    p: &Program,
    class: ClassId,
    line: Option<Entry>,
    into: &mut Vec<Entry>,
) -> Result<(), NoMemory>
    ensures { OnOk result (into.new.items ≡ into.old.items ++ heavy_lines p.now class (optional line)) }
{
    if !is_heavy_class(p, class) {
        return Ok(());
    }
    match line {
        None => Ok(()),
        Some(line) => {
            into.push(line)?;
            Ok(())
        }
    }
}

fn same_owner(a: Owner, b: Owner) -> bool
    ensures { result ≡ same_owner a b }
{
    match (a, b) {
        (Owner::Frame(a), Owner::Frame(b)) => a == b,
        (Owner::Field(a, f), Owner::Field(b, g)) => a == b && f == g,
        (Owner::Library, Owner::Library) => true,
        _ => false,
    }
}

pub(crate) fn owner_before(before: Option<Object>) -> Owner
    ensures { result ≡ owner_before before }
{
    match before {
        None => Owner::Unowned,
        Some(object) => object.owner,
    }
}

fn is_owned(owner: Owner) -> bool
    ensures { result ≡ is_owned owner }
{
    match owner {
        Owner::Frame(_) | Owner::Field(_, _) | Owner::Library => true,
        Owner::Released | Owner::Lost | Owner::Unowned => false,
    }
}

// What is released or lost has no line of this kind.
fn owner_line(pos: Pos, change: &ObjectChange) -> Option<Entry>
    ensures { result ≡ owner_line pos change.now.before change.now.number change.now.after }
{
    let owner = change.after.owner;
    if is_owned(owner) && !same_owner(owner_before(change.before), owner) {
        Some(Entry::Owner(change.number, owner, pos))
    } else {
        None
    }
}

/// Puts behind `into` a line for each change by which the owner is another frame, field or the library than before.
pub fn add_owner_lines(
    p: &Program,
    pos: Pos,
    changes: &[ObjectChange],
    into: &mut Vec<Entry>,
) -> Result<(), NoMemory>
    ensures { OnOk result (into.new.items ≡ into.old.items ++ owner_changes p.now pos changes.now) }
{
    'each: for change in changes {
        push_line(p, change.after.class, owner_line(pos, change), into)?;
    }
    Ok(())
}

/// Puts behind `into` a line for each of the objects, which are reset.
pub fn add_reset_lines(
    p: &Program,
    pos: Pos,
    changes: &[ObjectChange],
    into: &mut Vec<Entry>,
) -> Result<(), NoMemory>
    ensures { OnOk result (into.new.items ≡ into.old.items ++ reset_changes p.now pos changes.now) }
{
    'each: for change in changes {
        let line = Some(Entry::Reset(change.number, pos));
        push_line(p, change.after.class, line, into)?;
    }
    Ok(())
}

fn was_finished(before: Option<Object>) -> bool
    ensures { result ≡ was_finished before }
{
    match before {
        None => false,
        Some(object) => object.finished,
    }
}

fn birth(pos: Pos, number: u64, object: Object, link: Option<Link>) -> Entry
    ensures { result ≡ birth pos number object link }
{
    match link {
        None => Entry::Born(number, object.class, object.owner, pos),
        Some(link) => Entry::Linked(number, object.class, link.to, pos),
    }
}

fn birth_line(pos: Pos, change: &ObjectChange) -> Option<Entry>
    ensures { result ≡ birth_line pos change.now.before change.now.number change.now.after }
{
    let object = change.after;
    if object.finished && !was_finished(change.before) {
        Some(birth(pos, change.number, object, object.link))
    } else {
        None
    }
}

/// Puts behind `into` a line for each change by which an object is finished that was not before.
pub fn add_birth_lines(
    p: &Program,
    pos: Pos,
    changes: &[ObjectChange],
    into: &mut Vec<Entry>,
) -> Result<(), NoMemory>
    ensures { OnOk result (into.new.items ≡ into.old.items ++ birth_changes p.now pos changes.now) }
{
    'each: for change in changes {
        push_line(p, change.after.class, birth_line(pos, change), into)?;
    }
    Ok(())
}
