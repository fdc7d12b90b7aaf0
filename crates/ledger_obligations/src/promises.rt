//! What the library keeps: the promises of a program's methods on owning fields.

ghost use Rattle.std.specs.Prelude.{◌≡◌, ◌++◌, map, OnOk};
ghost use Rattle.std.specs.List.{find, flat_map};
ghost use Rattle.program_model.specs.Lookups.{class_at, method_at};
ghost use Rattle.program_model.specs.Overrides.{is_library, methods_of, super_in};
ghost use Rattle.ledger_obligations.specs.Obligations.{contents, goes_on, is_library_method, is_name, is_named, is_the_one, keep_all, kept_name, keep_own, kept_fields, method_named, own_promises, promises_written, through, through_in};
ghost use Rattle.ledger_state.specs.Heaps.{object_at};
ghost use Rattle.ledger_state.specs.Classes.{class_in};
ghost use Rattle.must_call_sets.specs.Bodies.{promises_in};

use crate::note::{Note, note_on};
use ledger_state::{Heap, Link, Object, Value, field_of};
use must_call_sets::must;
use program_model::{ClassId, Method, MethodId, Program, Promise, Target};
use rlc_base::{NameId, NameSet, NoMemory};

fn is_library(p: &Program, class: ClassId) -> bool
    ensures { result ≡ is_library p.now class }
{
    match p.class(class) {
        None => false,
        Some(found) => found.library,
    }
}

fn super_of(p: &Program, class: ClassId) -> Option<ClassId>
    ensures { result ≡ super_in (class_at p.now class) }
{
    match p.class(class) {
        None => None,
        Some(found) => found.sup,
    }
}

// Whether the set has this name alone.
fn is_the_one(names: NameSet, name: NameId) -> bool
    ensures { result ≡ is_the_one names name }
{
    names.contains(name) && names.is_subset(NameSet::empty().insert(name))
}

fn goes_on(p: &Program, name: NameId, x: Object, link: Link) -> bool
    ensures { result ≡ goes_on p.now name x link }
{
    link.by_library || !is_the_one(must(p, x.class), name)
}

// The note that goes on through the link of the object with this number.
pub(crate) fn through(p: &Program, heap: &Heap, name: NameId, number: u64) -> Option<Note>
    ensures { result ≡ through_in p.now name (object_at heap.now number) }
{
    match heap.object(number) {
        None => None,
        Some(x) => match x.link {
            None => None,
            Some(link) => {
                if goes_on(p, name, x, link) {
                    Some(note_on(true, link.to, name))
                } else {
                    None
                }
            }
        },
    }
}

fn is_name(name: NameId, interest: Option<NameId>) -> bool
    ensures { result ≡ is_name name interest }
{
    match interest {
        None => false,
        Some(found) => found.0 == name.0,
    }
}

fn is_named(p: &Program, name: NameId, method: MethodId) -> bool
    ensures { result ≡ is_named p.now name method }
{
    match p.method(method) {
        None => false,
        Some(m) => !m.is_private && is_name(name, m.sig.interest),
    }
}

fn named_among(p: &Program, name: NameId, methods: &[MethodId]) -> Option<MethodId>
    ensures { result ≡ find (is_named p.now name) methods.now }
{
    methods.iter().copied().find(|m| is_named(p, name, *m))
}

fn named_in(p: &Program, name: NameId, class: ClassId) -> Option<MethodId>
    ensures { result ≡ find (is_named p.now name) (methods_of p.now class) }
{
    match p.class(class) {
        None => None,
        Some(found) => named_among(p, name, &found.methods),
    }
}

// The instance method without parameters of this name, of the class or else of the nearest super class that has one.
fn method_named(p: &Program, class: ClassId, name: NameId) -> Option<MethodId>
    ensures { result ≡ method_named p.now class name }
{
    let mut next = Some(class);
    for step in 0..p.classes.len() {
        match next {
            None => return None,
            Some(class) => match named_in(p, name, class) {
                Some(found) => return Some(found),
                None => next = super_of(p, class),
            },
        }
    }
    None
}

/// Whether a stub declares the method.
pub fn is_library_method(p: &Program, method: MethodId) -> bool
    ensures { result ≡ is_library_method p.now (method_at p.now method) }
{
    match p.method(method) {
        None => false,
        Some(m) => is_library(p, m.class),
    }
}

// Puts the note of the name with this number at the end of the list, where it is one of these.
fn add_name(object: u64, names: NameSet, number: u32, into: &mut Vec<Note>) -> Result<(), NoMemory>
    ensures { OnOk result (into.new.items ≡ into.old.items ++ kept_name object names number) }
{
    if names.contains(NameId(number)) {
        into.push(note_on(true, object, NameId(number)))?;
    }
    Ok(())
}

// Puts the notes that these names were called and kept at the end of the list.
fn add_kept_on(object: u64, names: NameSet, into: &mut Vec<Note>) -> Result<(), NoMemory>
    ensures { OnOk result (into.new.items ≡ into.old.items ++ keep_all (Some object) names) }
{
    'each: for number in 0..128u32 {
        add_name(object, names, number, into)?;
    }
    Ok(())
}

/// Puts the notes that these names were called on the object, and kept, at the end of the list.
pub fn add_kept(object: Option<u64>, names: NameSet, into: &mut Vec<Note>) -> Result<(), NoMemory>
    ensures { OnOk result (into.new.items ≡ into.old.items ++ keep_all object names) }
{
    match object {
        None => Ok(()),
        Some(number) => add_kept_on(number, names, into),
    }
}

fn add_own(
    p: &Program,
    heap: &Heap,
    this: Value,
    promise: Promise,
    into: &mut Vec<Note>,
) -> Result<(), NoMemory>
    ensures { OnOk result (into.new.items ≡ into.old.items ++ keep_own p.now heap.now this promise) }
{
    match promise.target {
        Target::At(_) => Ok(()),
        Target::OfField(field) => add_kept(
            field_of(p, heap, this, field).object(),
            promise.names,
            into,
        ),
    }
}

fn add_each(
    p: &Program,
    heap: &Heap,
    this: Value,
    promises: &[Promise],
    into: &mut Vec<Note>,
) -> Result<(), NoMemory>
    ensures { OnOk result (into.new.items ≡ into.old.items ++ flat_map (keep_own p.now heap.now this) promises.now) }
{
    'each: for promise in promises {
        add_own(p, heap, this, *promise, into)?;
    }
    Ok(())
}

fn add_written(
    p: &Program,
    heap: &Heap,
    this: Value,
    method: &Method,
    into: &mut Vec<Note>,
) -> Result<(), NoMemory>
    ensures { OnOk result (into.new.items ≡ into.old.items ++ flat_map (keep_own p.now heap.now this) (promises_written p.now (Some method.now))) }
{
    if is_library(p, method.class) {
        return Ok(());
    }
    add_each(p, heap, this, &method.sig.promises, into)
}

fn add_fields(
    p: &Program,
    heap: &Heap,
    object: u64,
    name: NameId,
    class: ClassId,
    into: &mut Vec<Note>,
) -> Result<(), NoMemory>
    ensures { OnOk result (into.new.items ≡ into.old.items ++ kept_fields p.now heap.now object name (Some class)) }
{
    match method_named(p, class, name) {
        None => Ok(()),
        Some(found) => match p.method(found) {
            None => Ok(()),
            Some(method) => add_written(p, heap, Value::Object(object), method, into),
        },
    }
}

// Puts the notes on the contents of owning fields that follow from a note, at the end of the list.
pub(crate) fn add_contents(
    p: &Program,
    heap: &Heap,
    a: Note,
    into: &mut Vec<Note>,
) -> Result<(), NoMemory>
    ensures { OnOk result (into.new.items ≡ into.old.items ++ contents p.now heap.now a a.kept) }
{
    if !a.kept {
        return Ok(());
    }
    match heap.object(a.object) {
        None => Ok(()),
        Some(x) => add_fields(p, heap, a.object, a.name, x.class, into),
    }
}
