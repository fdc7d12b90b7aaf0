//! The lines of the ledger that an object has one of at most in a step: new owners, resets, births and leaks.

ghost use Rattle.std.specs.Prelude.{◌≡◌, ◌++◌, OnOk};
ghost use Rattle.program_model.specs.Lookups.{optional};
ghost use Rattle.ledger_entries.specs.Entries.{birth, birth_entries, birth_line, by_number, heavy_lines, is_leak_of, is_lost, is_owned, leak_entries, leak_line, leaks_of, owner_before, owner_entries, owner_line, reset_entries, reset_line, same_owner, was_finished};
ghost use Rattle.ledger_state.specs.Heaps.{has_number};

use ledger_state::{Entry, Heap, LeakWord, Link, Object, Owner};
use must_call_sets::is_heavy_class;
use program_model::{ClassId, Program};
use rlc_base::{NoMemory, Pos};

// Objects whose class has no must-call set have no lines.
fn push_line(
    p: &Program,
    class: ClassId,
    line: Option<Entry>,
    into: &mut Vec<Entry>,
) -> Result<(), NoMemory>
    ensures { OnOk result (into.new.items ≡ into.old.items ++ heavy_lines p.now class (optional line)) }
{
    if !is_heavy_class(p, class) {
        return Ok(());
    }
    match line {
        None => Ok(()),
        Some(line) => {
            into.push(line)?;
            Ok(())
        }
    }
}

fn same_owner(a: Owner, b: Owner) -> bool
    ensures { result ≡ same_owner a b }
{
    match (a, b) {
        (Owner::Frame(a), Owner::Frame(b)) => a == b,
        (Owner::Field(a, f), Owner::Field(b, g)) => a == b && f == g,
        (Owner::Library, Owner::Library) => true,
        _ => false,
    }
}

fn owner_before(before: Option<Object>) -> Owner
    ensures { result ≡ owner_before before }
{
    match before {
        None => Owner::Unowned,
        Some(object) => object.owner,
    }
}

fn is_owned(owner: Owner) -> bool
    ensures { result ≡ is_owned owner }
{
    match owner {
        Owner::Frame(_) | Owner::Field(_, _) | Owner::Library => true,
        Owner::Released | Owner::Lost | Owner::Unowned => false,
    }
}

// What is released or lost has no line of this kind.
fn owner_line(pos: Pos, before: Option<Object>, number: u64, object: Object) -> Option<Entry>
    ensures { result ≡ owner_line pos before number object }
{
    if is_owned(object.owner) && !same_owner(owner_before(before), object.owner) {
        Some(Entry::Owner(number, object.owner, pos))
    } else {
        None
    }
}

/// Puts behind `into` a line for each object whose owner is another frame, field or the library than before.
pub fn owner_entries(
    p: &Program,
    pos: Pos,
    before: &Heap,
    after: &Heap,
    into: &mut Vec<Entry>,
) -> Result<(), NoMemory>
    ensures { OnOk result (into.new.items ≡ into.old.items ++ owner_entries p.now pos before.now after.now) }
{
    let mut number = 0;
    'objects: for object in after.objects.iter() {
        number += 1;
        let line = owner_line(pos, before.object(number), number, *object);
        push_line(p, object.class, line, into)?;
    }
    Ok(())
}

fn has_number(numbers: &[u64], number: u64) -> bool
    ensures { result ≡ has_number numbers.now number }
{
    numbers.iter().any(|other| *other == number)
}

fn reset_line(pos: Pos, heap: &Heap, roots: &[u64], number: u64) -> Option<Entry>
    ensures { result ≡ reset_line pos heap.now roots.now number }
{
    if has_number(roots, heap.root(number)) {
        Some(Entry::Reset(number, pos))
    } else {
        None
    }
}

/// Puts behind `into` a line for each object with one of the roots.
pub fn reset_entries(
    p: &Program,
    pos: Pos,
    roots: &[u64],
    heap: &Heap,
    into: &mut Vec<Entry>,
) -> Result<(), NoMemory>
    ensures { OnOk result (into.new.items ≡ into.old.items ++ reset_entries p.now pos roots.now heap.now) }
{
    let mut number = 0;
    'objects: for object in heap.objects.iter() {
        number += 1;
        let line = reset_line(pos, heap, roots, number);
        push_line(p, object.class, line, into)?;
    }
    Ok(())
}

fn was_finished(before: Option<Object>) -> bool
    ensures { result ≡ was_finished before }
{
    match before {
        None => false,
        Some(object) => object.finished,
    }
}

fn birth(pos: Pos, number: u64, object: Object, link: Option<Link>) -> Entry
    ensures { result ≡ birth pos number object link }
{
    match link {
        None => Entry::Born(number, object.class, object.owner, pos),
        Some(link) => Entry::Linked(number, object.class, link.to, pos),
    }
}

fn birth_line(pos: Pos, before: Option<Object>, number: u64, object: Object) -> Option<Entry>
    ensures { result ≡ birth_line pos before number object }
{
    if object.finished && !was_finished(before) {
        Some(birth(pos, number, object, object.link))
    } else {
        None
    }
}

/// Puts behind `into` a line for each object that is finished now and was not before.
pub fn birth_entries(
    p: &Program,
    pos: Pos,
    before: &Heap,
    after: &Heap,
    into: &mut Vec<Entry>,
) -> Result<(), NoMemory>
    ensures { OnOk result (into.new.items ≡ into.old.items ++ birth_entries p.now pos before.now after.now) }
{
    let mut number = 0;
    'objects: for object in after.objects.iter() {
        number += 1;
        let line = birth_line(pos, before.object(number), number, *object);
        push_line(p, object.class, line, into)?;
    }
    Ok(())
}

fn is_lost(owner: Owner) -> bool
    ensures { result ≡ is_lost owner }
{
    matches!(owner, Owner::Lost)
}

fn leak_line(
    word: LeakWord,
    pos: Pos,
    before: Option<Object>,
    number: u64,
    object: Object,
) -> Option<Entry>
    ensures { result ≡ leak_line word pos before number object }
{
    if is_lost(object.owner) && !is_lost(owner_before(before)) {
        Some(Entry::Leak(number, word, pos))
    } else {
        None
    }
}

/// Puts behind `into` a line for each object that is lost now and was not before.
pub fn leak_entries(
    p: &Program,
    word: LeakWord,
    pos: Pos,
    before: &Heap,
    after: &Heap,
    into: &mut Vec<Entry>,
) -> Result<(), NoMemory>
    ensures { OnOk result (into.new.items ≡ into.old.items ++ leak_entries p.now word pos before.now after.now) }
{
    let mut number = 0;
    'objects: for object in after.objects.iter() {
        number += 1;
        let line = leak_line(word, pos, before.object(number), number, *object);
        push_line(p, object.class, line, into)?;
    }
    Ok(())
}

fn is_leak_of(number: u64, entry: Entry) -> bool
    ensures { result ≡ is_leak_of number entry }
{
    match entry {
        Entry::Leak(lost, _, _) => lost == number,
        Entry::Born(_, _, _, _)
        | Entry::Linked(_, _, _, _)
        | Entry::Called(_, _, _)
        | Entry::Owner(_, _, _)
        | Entry::Reset(_, _) => false,
    }
}

fn push_leaks_of(leaks: &[Entry], number: u64, into: &mut Vec<Entry>) -> Result<(), NoMemory>
    ensures { OnOk result (into.new.items ≡ into.old.items ++ leaks_of leaks.now number) }
{
    'leaks: for leak in leaks {
        if is_leak_of(number, *leak) {
            into.push(*leak)?;
        }
    }
    Ok(())
}

/// Puts the leaks of a step behind `into`, by the numbers of the heap's objects.
pub fn by_number(heap: &Heap, leaks: &[Entry], into: &mut Vec<Entry>) -> Result<(), NoMemory>
    ensures { OnOk result (into.new.items ≡ into.old.items ++ by_number heap.now leaks.now) }
{
    let count = heap.objects.len() as u64;
    'objects: for before in 0..count {
        push_leaks_of(leaks, before + 1, into)?;
    }
    Ok(())
}
