//! The lines of names that were called.

ghost use Rattle.std.specs.Prelude.{◌≡◌, ◌++◌, OnOk};
ghost use Rattle.ledger_entries.specs.Entries.{called_entries, called_lines, heavy_lines, names_before, new_names};

use crate::names::names_in_order;
use ledger_state::{Entry, Heap, Object};
use must_call_sets::is_heavy_class;
use program_model::{ClassId, Program};
use rlc_base::{NameId, NameSet, NoMemory, Pos};
use std::alloc::Global;

fn names_before(before: Option<Object>) -> NameSet
    ensures { result ≡ names_before before }
{
    match before {
        None => NameSet::empty(),
        Some(object) => object.called,
    }
}

fn new_names(before: Option<Object>, object: Object) -> NameSet
    ensures { result ≡ new_names before object }
{
    object.called.minus(names_before(before))
}

fn called_lines(
    pos: Pos,
    names: &[NameId],
    fresh: NameSet,
    number: u64,
    into: &mut Vec<Entry>,
) -> Result<(), NoMemory>
    ensures { OnOk result (into.new.items ≡ into.old.items ++ called_lines pos names.now fresh number) }
{
    'names: for name in names {
        if fresh.contains(*name) {
            into.push(Entry::Called(number, *name, pos))?;
        }
    }
    Ok(())
}

// Objects whose class has no must-call set have no lines.
fn heavy_called(
    p: &Program,
    pos: Pos,
    names: &[NameId],
    class: ClassId,
    fresh: NameSet,
    number: u64,
    into: &mut Vec<Entry>,
) -> Result<(), NoMemory>
    ensures { OnOk result (into.new.items ≡ into.old.items ++ heavy_lines p.now class (called_lines pos names.now fresh number)) }
{
    if is_heavy_class(p, class) {
        called_lines(pos, names, fresh, number, into)
    } else {
        Ok(())
    }
}

/// Puts behind `into` a line for each name that an object has now and had not before; the names of one object go by their
/// bytes.
pub fn called_entries(
    alloc: Global,
    p: &Program,
    pos: Pos,
    before: &Heap,
    after: &Heap,
    into: &mut Vec<Entry>,
) -> Result<(), NoMemory>
    ensures { OnOk result (into.new.items ≡ into.old.items ++ called_entries p.now pos before.now after.now) }
{
    let names = names_in_order(alloc, p)?;
    let mut number = 0;
    'objects: for object in after.objects.iter() {
        number += 1;
        let fresh = new_names(before.object(number), *object);
        heavy_called(p, pos, &names, object.class, fresh, number, into)?;
    }
    Ok(())
}
