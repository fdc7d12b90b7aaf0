//! The objects that notes change.

ghost use Rattle.std.specs.Prelude.{◌≡◌, ◌<◌, [], filter, IfOk, IfSome, Some, true};
ghost use Rattle.ledger_obligations.specs.Obligations.{is_of, noted_object, with_name, with_names};
ghost use Rattle.ledger_state.specs.Heaps.{object_at};
ghost use Rattle.spread_notes.specs.SpreadNotes.{AllMadeOf, MadeOf, NotedAs, has_object, put_each, rises_beyond, speak_of};

use crate::numbered::Numbered;
use crate::spreading::spread_notes;
use ledger_obligations::{Note, is_unmet};
use ledger_state::{Heap, Object};
use program_model::Program;
use rlc_base::{NameId, NameSet, NoMemory};
use std::alloc::Global;

/// What notes, and all that follow from them, make of the objects of which they speak.
#[derive(Drop)]
pub struct NotedObjects {
    pub objects: Vec<Numbered>,
}

// The set with the name as well. A name has a number below 128.
fn with_name(names: NameSet, name: NameId) -> NameSet
    ensures { result ≡ with_name names name }
{
    if name.0 < 128 {
        names.insert(name)
    } else {
        names
    }
}

fn is_of(number: u64, a: Note) -> bool
    ensures { result ≡ is_of number a }
{
    a.object == number
}

// The names called on an object, with those of the notes that speak of it.
fn names_noted(notes: &[Note], number: u64, called: NameSet) -> NameSet
    ensures { result ≡ with_names called (filter (is_of number) notes.now) }
{
    let mut names = called;
    'each: for a in notes {
        if is_of(number, *a) {
            names = with_name(names, a.name);
        }
    }
    names
}

fn noted_object(notes: &[Note], number: u64, x: Object) -> Object
    ensures { result ≡ noted_object notes.now number x }
{
    Object {
        called: names_noted(notes, number, x.called),
        ..x
    }
}

// What the notes make of the object, where that is unmet only if it was before.
fn made_of_object(notes: &[Note], number: u64, x: Object) -> Option<Numbered>
    ensures number { IfSome result (λ b. b.number ≡ number) }
    ensures made { IfSome result (λ b. MadeOf notes.now b (Some x)) }
{
    let object = noted_object(notes, number, x);
    if is_unmet(&object) {
        if !is_unmet(&x) {
            return None;
        }
    }
    Some(Numbered { number, object })
}

fn made_of(heap: &Heap, notes: &[Note], number: u64) -> Option<Numbered>
    ensures number { IfSome result (λ b. b.number ≡ number) }
    ensures made { IfSome result (λ b. MadeOf notes.now b (object_at heap.now b.number)) }
{
    match heap.object(number) {
        None => None,
        Some(x) => made_of_object(notes, number, x),
    }
}

// A number beyond `last`, the nearer one of the two where there is another one.
fn nearer(last: u64, number: u64, other: Option<u64>) -> Option<u64>
    requires { IfSome other (λ k. last < k) }
    ensures { IfSome result (λ k. last < k) }
{
    if number <= last {
        return other;
    }
    match other {
        None => Some(number),
        Some(found) => {
            if number < found {
                Some(number)
            } else {
                Some(found)
            }
        }
    }
}

// The next object beyond `last` of which a note speaks.
fn next_object(notes: &[Note], last: u64) -> Option<u64>
    ensures { IfSome result (λ k. last < k) }
{
    let mut next = None;
    'each: for a in notes {
        next = nearer(last, a.object, next);
    }
    next
}

// Puts what the notes make of their objects into the empty list, by their numbers. Says whether the objects are there, and none is
// unmet that was not before.
fn add_objects(heap: &Heap, notes: &[Note], into: &mut Vec<Numbered>) -> Result<bool, NoMemory>
    requires { into.old.items ≡ [] }
    ensures made { IfOk result (λ b. b ≡ true → AllMadeOf heap.now notes.now into.new.items) }
    ensures rises { IfOk result (λ b. b ≡ true → rises_beyond 0 into.new.items ≡ true) }
{
    let mut last = 0u64;
    'each: for _note in 0..notes.len() {
        match next_object(notes, last) {
            None => return Ok(true),
            Some(number) => match made_of(heap, notes, number) {
                None => return Ok(false),
                Some(made) => {
                    into.push(made)?;
                    last = number;
                }
            },
        }
    }
    Ok(true)
}

fn has_object(objects: &[Numbered], number: u64) -> bool
    ensures { result ≡ has_object objects.now number }
{
    objects.iter().any(|b| b.number == number)
}

// Whether the notes speak of these objects alone.
fn speak_of(objects: &[Numbered], notes: &[Note]) -> bool
    ensures { result ≡ speak_of objects.now notes.now }
{
    notes.iter().all(|a| has_object(objects, a.object))
}

// What notes from which nothing more follows make of the objects of which they speak.
fn objects_of(alloc: Global, heap: &Heap, notes: &[Note]) -> Result<Option<NotedObjects>, NoMemory>
    ensures made { IfOk result (λ o. IfSome o (λ s. AllMadeOf heap.now notes.now s.objects.items)) }
    ensures rises { IfOk result (λ o. IfSome o (λ s. rises_beyond 0 s.objects.items ≡ true)) }
    ensures speak { IfOk result (λ o. IfSome o (λ s. speak_of s.objects.items notes.now ≡ true)) }
{
    let mut objects = Vec::new(alloc);
    if !add_objects(heap, notes, &mut objects)? {
        return Ok(None);
    }
    if !speak_of(&objects, notes) {
        return Ok(None);
    }
    Ok(Some(NotedObjects { objects }))
}

/// What these notes, and all that follow from them, make of the objects of which they speak, by their numbers. None, which no run comes
/// to, where one of these objects is not there or gets unmet, or more follow than two for each object and name.
pub fn noted_objects(
    alloc: Global,
    p: &Program,
    heap: &Heap,
    first: &[Note],
) -> Result<Option<NotedObjects>, NoMemory>
    ensures { IfOk result (λ o. IfSome o (λ s. NotedAs p.now heap.now first.now s.objects.items)) }
{
    match spread_notes(alloc, p, heap, first)? {
        None => Ok(None),
        Some(all) => objects_of(alloc, heap, &all.notes),
    }
}

/// Puts each of these objects in its place.
pub fn put_each(heap: &mut Heap, objects: &[Numbered])
    ensures { heap.new ≡ put_each objects.now heap.old }
{
    'each: for b in objects {
        heap.put(b.number, b.object);
    }
}
