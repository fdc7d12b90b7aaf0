//! What the library keeps by a note: the promises of a program's method on the contents of owning fields.

ghost use Rattle.std.specs.Prelude.{◌≡◌, ◌++◌, OnOk};
ghost use Rattle.std.specs.List.{flat_map};
ghost use Rattle.program_model.specs.Lookups.{method_at};
ghost use Rattle.ledger_obligations.specs.Obligations.{contents, keep_own, kept_fields, promises_written};

use crate::promises::method_named;
use ledger_obligations::{Note, add_kept, is_library_method};
use ledger_state::{Heap, Value, field_of};
use program_model::{ClassId, MethodId, Program, Promise, Target};
use rlc_base::{NameId, NoMemory};

// What one promise of a method of `this` says of the content of a field.
fn add_own(
    p: &Program,
    heap: &Heap,
    this: Value,
    promise: Promise,
    into: &mut Vec<Note>,
) -> Result<(), NoMemory>
    ensures { OnOk result (into.new.items ≡ into.old.items ++ keep_own p.now heap.now this promise) }
{
    match promise.target {
        Target::At(_) => Ok(()),
        Target::OfField(field) => add_kept(
            field_of(p, heap, this, field).object(),
            promise.names,
            into,
        ),
    }
}

fn add_each(
    p: &Program,
    heap: &Heap,
    this: Value,
    promises: &[Promise],
    into: &mut Vec<Note>,
) -> Result<(), NoMemory>
    ensures { OnOk result (into.new.items ≡ into.old.items ++ flat_map (keep_own p.now heap.now this) promises.now) }
{
    'each: for promise in promises {
        add_own(p, heap, this, *promise, into)?;
    }
    Ok(())
}

// What a method that the program has written promises of them. Of one of the library nothing is kept.
fn add_written(
    p: &Program,
    heap: &Heap,
    this: Value,
    method: MethodId,
    into: &mut Vec<Note>,
) -> Result<(), NoMemory>
    ensures { OnOk result (into.new.items ≡ into.old.items ++ flat_map (keep_own p.now heap.now this) (promises_written p.now (method_at p.now method))) }
{
    if is_library_method(p, method) {
        return Ok(());
    }
    match p.method(method) {
        None => Ok(()),
        Some(m) => add_each(p, heap, this, &m.sig.promises, into),
    }
}

fn add_fields(
    p: &Program,
    heap: &Heap,
    object: u64,
    name: NameId,
    class: ClassId,
    into: &mut Vec<Note>,
) -> Result<(), NoMemory>
    ensures { OnOk result (into.new.items ≡ into.old.items ++ kept_fields p.now heap.now object name (Some class)) }
{
    match method_named(p, class, name) {
        None => Ok(()),
        Some(found) => add_written(p, heap, Value::Object(object), found, into),
    }
}

/// Puts the notes on the contents of owning fields that follow from a note, at the end of the list.
pub(crate) fn add_contents(
    p: &Program,
    heap: &Heap,
    a: Note,
    into: &mut Vec<Note>,
) -> Result<(), NoMemory>
    ensures { OnOk result (into.new.items ≡ into.old.items ++ contents p.now heap.now a a.kept) }
{
    if !a.kept {
        return Ok(());
    }
    match heap.object(a.object) {
        None => Ok(()),
        Some(x) => add_fields(p, heap, a.object, a.name, x.class, into),
    }
}
