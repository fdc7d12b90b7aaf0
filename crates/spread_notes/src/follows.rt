//! What follows from a note: through a link, and by what a kept method promises on the contents of owning fields.

ghost use Rattle.std.specs.Prelude.{◌≡◌, ◌++◌, IfOk, OnOk};
ghost use Rattle.std.specs.List.{flat_map};
ghost use Rattle.program_model.specs.Lookups.{optional};
ghost use Rattle.ledger_state.specs.Heaps.{object_at};
ghost use Rattle.ledger_obligations.specs.Obligations.{follows, goes_on, has_note, is_the_one, joined, same_note, through_in};

use crate::contents::add_contents;
use ledger_obligations::{Note, note_on};
use ledger_state::{Heap, Link, Object};
use must_call_sets::must;
use program_model::Program;
use rlc_base::{NameId, NameSet, NoMemory};
use std::alloc::Global;

// Whether the set has this name alone.
fn is_the_one(names: NameSet, name: NameId) -> bool
    ensures { result ≡ is_the_one names name }
{
    names.contains(name) && names.is_subset(NameSet::empty().insert(name))
}

fn goes_on(p: &Program, name: NameId, x: Object, link: Link) -> bool
    ensures { result ≡ goes_on p.now name x link }
{
    link.by_library || !is_the_one(must(p, x.class), name)
}

// The note that goes on through the link of the object with this number.
fn through(p: &Program, heap: &Heap, name: NameId, number: u64) -> Option<Note>
    ensures { result ≡ through_in p.now name (object_at heap.now number) }
{
    match heap.object(number) {
        None => None,
        Some(x) => match x.link {
            None => None,
            Some(link) => {
                if goes_on(p, name, x, link) {
                    Some(note_on(true, link.to, name))
                } else {
                    None
                }
            }
        },
    }
}

fn add_through(p: &Program, heap: &Heap, a: Note, into: &mut Vec<Note>) -> Result<(), NoMemory>
    ensures { OnOk result (into.new.items ≡ into.old.items ++ optional (through_in p.now a.name (object_at heap.now a.object))) }
{
    if let Some(further) = through(p, heap, a.name, a.object) {
        into.push(further)?;
    }
    Ok(())
}

// Puts what follows from a note at the end of the list.
fn add_follows(p: &Program, heap: &Heap, a: Note, into: &mut Vec<Note>) -> Result<(), NoMemory>
    ensures { OnOk result (into.new.items ≡ into.old.items ++ follows p.now heap.now a) }
{
    add_through(p, heap, a, into)?;
    add_contents(p, heap, a, into)?;
    Ok(())
}

/// What follows from each of the notes, in their order.
pub(crate) fn all_follows(
    alloc: Global,
    p: &Program,
    heap: &Heap,
    notes: &[Note],
) -> Result<Vec<Note>, NoMemory>
    ensures { IfOk result (λ v. v.items ≡ flat_map (follows p.now heap.now) notes.now) }
{
    let mut further = Vec::new(alloc);
    'each: for a in notes {
        add_follows(p, heap, *a, &mut further)?;
    }
    Ok(further)
}

fn same_note(a: Note, b: Note) -> bool
    ensures { result ≡ same_note a b }
{
    a.object == b.object && a.name.0 == b.name.0 && if a.kept { b.kept } else { !b.kept }
}

fn has_note(notes: &[Note], a: Note) -> bool
    ensures { result ≡ has_note notes.now a }
{
    notes.iter().any(|b| same_note(a, *b))
}

/// Lets notes join others, each once.
pub(crate) fn join(notes: &mut Vec<Note>, further: &[Note]) -> Result<(), NoMemory>
    ensures { OnOk result (notes.new.items ≡ joined notes.old.items further.now) }
{
    'each: for a in further {
        if !has_note(notes, *a) {
            notes.push(*a)?;
        }
    }
    Ok(())
}
