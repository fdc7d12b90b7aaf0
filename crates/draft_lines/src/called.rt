//! The lines of names that were called on the objects.

ghost use Rattle.std.specs.Prelude.{◌≡◌, ◌++◌, OnOk};
ghost use Rattle.std.specs.List.{flat_map};
ghost use Rattle.ledger_entries.specs.Entries.{called_lines, heavy_lines, names_before, names_in_order, new_names};
ghost use Rattle.draft_lines.specs.DraftLines.{called_by, called_changes, lines_of_change};

use crate::change::ObjectChange;
use ledger_entries::names_in_order;
use ledger_state::{Entry, Object};
use must_call_sets::is_heavy_class;
use program_model::Program;
use rlc_base::{NameId, NameSet, NoMemory, Pos};
use std::alloc::Global;

fn names_before(before: Option<Object>) -> NameSet
    ensures { result ≡ names_before before }
{
    match before {
        None => NameSet::empty(),
        Some(object) => object.called,
    }
}

fn new_names(change: &ObjectChange) -> NameSet
    ensures { result ≡ new_names change.now.before change.now.after }
{
    change.after.called.minus(names_before(change.before))
}

fn called_lines(
    pos: Pos,
    names: &[NameId],
    fresh: NameSet,
    number: u64,
    into: &mut Vec<Entry>,
) -> Result<(), NoMemory>
    ensures { OnOk result (into.new.items ≡ into.old.items ++ called_lines pos names.now fresh number) }
{
    'names: for name in names {
        if fresh.contains(*name) {
            into.push(Entry::Called(number, *name, pos))?;
        }
    }
    Ok(())
}

// Objects whose class has no must-call set have no lines.
fn lines_of_change(
    p: &Program,
    pos: Pos,
    names: &[NameId],
    change: &ObjectChange,
    into: &mut Vec<Entry>,
) -> Result<(), NoMemory>
    ensures { OnOk result (into.new.items ≡ into.old.items ++ heavy_lines p.now change.now.after.class (called_lines pos names.now (new_names change.now.before change.now.after) change.now.number)) }
{
    if is_heavy_class(p, change.after.class) {
        called_lines(pos, names, new_names(change), change.number, into)
    } else {
        Ok(())
    }
}

/// Puts behind `into` a line for each name that was called on one of the objects by its change; the names of one object go by their
/// bytes.
pub fn add_called_lines(
    alloc: Global,
    p: &Program,
    pos: Pos,
    changes: &[ObjectChange],
    into: &mut Vec<Entry>,
) -> Result<(), NoMemory>
    ensures { OnOk result (into.new.items ≡ into.old.items ++ called_changes p.now pos changes.now) }
{
    let names = names_in_order(alloc, p)?;
    'each: for change in changes {
        lines_of_change(p, pos, &names, change, into)?;
    }
    Ok(())
}
