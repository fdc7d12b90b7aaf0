//! All that follows from the notes of a call's end.

ghost use Rattle.std.specs.Prelude.{◌≡◌, ◌≤◌, ◌++◌, ◌*◌, filter, length, IfOk, OnErr, OnOk};
ghost use Rattle.std.specs.List.{flat_map};
ghost use Rattle.ledger_state.specs.Heaps.{changed_from};
ghost use Rattle.ledger_obligations.specs.Obligations.{all_notes, follows, is_of, joined, noted, noted_object, spread, with_name, with_names};

use crate::note::{Note, has_note, is_of};
use crate::promises::{add_contents, through};
use ledger_state::{Heap, Object};
use program_model::Program;
use rlc_base::{NameId, NameSet, NoMemory};
use std::alloc::Global;

// Puts what follows from a note at the end of the list.
fn add_follows(p: &Program, heap: &Heap, a: Note, into: &mut Vec<Note>) -> Result<(), NoMemory>
    ensures { OnOk result (into.new.items ≡ into.old.items ++ follows p.now heap.now a) }
{
    if let Some(further) = through(p, heap, a.name, a.object) {
        into.push(further)?;
    }
    add_contents(p, heap, a, into)
}

// What follows from each of the notes.
fn all_follows(
    alloc: Global,
    p: &Program,
    heap: &Heap,
    notes: &[Note],
) -> Result<Vec<Note>, NoMemory>
    ensures { IfOk result (λ v. v.items ≡ flat_map (follows p.now heap.now) notes.now) }
{
    let mut further = Vec::new(alloc);
    'each: for a in notes {
        add_follows(p, heap, *a, &mut further)?;
    }
    Ok(further)
}

// Lets notes join others, each once.
fn join(notes: &mut Vec<Note>, further: &[Note]) -> Result<(), NoMemory>
    ensures { OnOk result (notes.new.items ≡ joined notes.old.items further.now) }
{
    'each: for a in further {
        if !has_note(notes, *a) {
            notes.push(*a)?;
        }
    }
    Ok(())
}

// Lets notes join all that follows from them, until a turn adds none.
#[tactic(auto, using(crate::proofs::NoteLaws::spread_ends))]
fn spread(alloc: Global, p: &Program, heap: &Heap, notes: &mut Vec<Note>) -> Result<(), NoMemory>
    ensures { OnOk result (notes.new.items ≡ spread (256 * length heap.now.objects) p.now heap.now notes.old.items) }
{
    let mut left = 256 * heap.objects.len() as u128;
    'turns: while left > 0 {
        let before = notes.len();
        let further = all_follows(alloc, p, heap, notes)?;
        join(notes, &further)?;
        if notes.len() == before {
            return Ok(());
        }
        left -= 1;
    }
    Ok(())
}

// All notes that follow from these, each once.
fn all_notes(alloc: Global, p: &Program, heap: &Heap, notes: &[Note]) -> Result<Vec<Note>, NoMemory>
    ensures { IfOk result (λ v. v.items ≡ all_notes p.now heap.now notes.now) }
{
    let mut all = Vec::new(alloc);
    join(&mut all, notes)?;
    spread(alloc, p, heap, &mut all)?;
    Ok(all)
}

// The set with the name as well. A name has a number below 128.
fn with_name(names: NameSet, name: NameId) -> NameSet
    ensures { result ≡ with_name names name }
{
    if name.0 < 128 {
        names.insert(name)
    } else {
        names
    }
}

// The names called on an object, with those of the notes that speak of it.
fn names_noted(notes: &[Note], object: u64, called: NameSet) -> NameSet
    ensures { result ≡ with_names called (filter (is_of object) notes.now) }
{
    let mut names = called;
    'each: for a in notes {
        if is_of(object, *a) {
            names = with_name(names, a.name);
        }
    }
    names
}

fn noted_object(notes: &[Note], object: u64, x: Object) -> Object
    ensures { result ≡ noted_object notes.now object x }
{
    Object {
        called: names_noted(notes, object, x.called),
        ..x
    }
}

// Puts the names of the notes at their objects.
fn note_all(notes: &[Note], objects: &mut [Object])
    ensures { objects.new ≡ changed_from 1 (noted_object notes.now) objects.old }
{
    'each: for place in 0..objects.len() {
        objects[place] = noted_object(notes, place as u64 + 1, objects[place]);
    }
}

/// The names of these notes, and of all that follow from them, join those called on their objects.
pub fn note_calls(
    alloc: Global,
    p: &Program,
    notes: &[Note],
    heap: &mut Heap,
) -> Result<(), NoMemory>
    ensures noted { OnOk result (heap.new ≡ noted p.now notes.now heap.old) }
    ensures kept { OnErr result (heap.new ≡ heap.old) }
{
    let all = all_notes(alloc, p, heap, notes)?;
    note_all(&all, &mut heap.objects);
    Ok(())
}
