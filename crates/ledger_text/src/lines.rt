//! The parts of a line, each put at the end of a text.

ghost use Rattle.std.specs.Prelude.{◌≡◌, ◌++◌, codes, decimal, OnOk};
ghost use Rattle.program_texts.specs.Texts.{class_text, field_text, name_text, place_text};
ghost use Rattle.ledger_text.specs.Lines.{birth_text, entry_line, event_text, leak_text, line_end, link_text, owner_text, place_of, start};

use ledger_state::{Entry, LeakWord, Owner};
use program_model::{ClassId, FieldId, Program};
use program_texts::{put_class, put_field, put_name, put_number, put_place};
use rlc_base::{NoMemory, Pos, Text};
use std::alloc::Global;

fn put_owner(alloc: Global, p: &Program, owner: Owner, into: &mut Text) -> Result<(), NoMemory>
    ensures { OnOk result (into.new ≡ into.old ++ owner_text p.now owner) }
{
    match owner {
        Owner::Frame(position) => {
            into.push_bytes(b"frame ")?;
            put_number(alloc, position, into)
        }
        Owner::Field(holder, field) => put_owning_field(alloc, p, holder, field, into),
        Owner::Library => into.push_bytes(b"library"),
        Owner::Released => into.push_bytes(b"released"),
        Owner::Lost => into.push_bytes(b"lost"),
        Owner::Unowned => into.push_bytes(b"unowned"),
    }
}

// A field of an object, as an owner.
fn put_owning_field(
    alloc: Global,
    p: &Program,
    holder: u64,
    field: FieldId,
    into: &mut Text,
) -> Result<(), NoMemory>
    ensures { OnOk result (into.new ≡ into.old ++ owner_text p.now (Owner.Field holder field)) }
{
    into.push_bytes(b"field #")?;
    put_number(alloc, holder, into)?;
    into.push_bytes(b".")?;
    put_field(p, field, into)
}

fn leak_word(word: LeakWord) -> &'static [u8]
    ensures { result.now ≡ leak_text word }
{
    match word {
        LeakWord::Overwritten => b"overwritten",
        LeakWord::Exit => b"exit",
        LeakWord::Lost => b"lost",
        LeakWord::ConstructorThrow => b"ctor.throw",
    }
}

// The word of a line, and the number of its object.
fn put_start(alloc: Global, word: &[u8], object: u64, into: &mut Text) -> Result<(), NoMemory>
    ensures { OnOk result (into.new ≡ into.old ++ start word.now object) }
{
    into.push_bytes(word)?;
    into.push_bytes(b" #")?;
    put_number(alloc, object, into)
}

fn put_birth(
    alloc: Global,
    p: &Program,
    object: u64,
    class: ClassId,
    owner: Owner,
    into: &mut Text,
) -> Result<(), NoMemory>
    ensures { OnOk result (into.new ≡ into.old ++ birth_text p.now object class owner) }
{
    put_start(alloc, b"born", object, into)?;
    into.push_bytes(b" ")?;
    put_class(p, class, into)?;
    into.push_bytes(b" ")?;
    put_owner(alloc, p, owner, into)
}

fn put_link(
    alloc: Global,
    p: &Program,
    object: u64,
    class: ClassId,
    to: u64,
    into: &mut Text,
) -> Result<(), NoMemory>
    ensures { OnOk result (into.new ≡ into.old ++ link_text p.now object class to) }
{
    put_start(alloc, b"linked", object, into)?;
    into.push_bytes(b" ")?;
    put_class(p, class, into)?;
    into.push_bytes(b" to #")?;
    put_number(alloc, to, into)
}

// What happened, without the place.
fn put_event(alloc: Global, p: &Program, entry: Entry, into: &mut Text) -> Result<(), NoMemory>
    ensures { OnOk result (into.new ≡ into.old ++ event_text p.now entry) }
{
    match entry {
        Entry::Born(object, class, owner, _) => put_birth(alloc, p, object, class, owner, into),
        Entry::Linked(object, class, to, _) => put_link(alloc, p, object, class, to, into),
        Entry::Called(object, name, _) => {
            put_start(alloc, b"called", object, into)?;
            into.push_bytes(b" ")?;
            put_name(p, name, into)
        }
        Entry::Owner(object, owner, _) => {
            put_start(alloc, b"owner", object, into)?;
            into.push_bytes(b" ")?;
            put_owner(alloc, p, owner, into)
        }
        Entry::Reset(object, _) => put_start(alloc, b"reset", object, into),
        Entry::Leak(object, word, _) => {
            put_start(alloc, b"leak", object, into)?;
            into.push_bytes(b" ")?;
            into.push_bytes(leak_word(word))
        }
    }
}

// Where it happened.
fn place_of(entry: Entry) -> Pos
    ensures { result ≡ place_of entry }
{
    match entry {
        Entry::Born(_, _, _, pos) => pos,
        Entry::Linked(_, _, _, pos) => pos,
        Entry::Called(_, _, pos) => pos,
        Entry::Owner(_, _, pos) => pos,
        Entry::Reset(_, pos) => pos,
        Entry::Leak(_, _, pos) => pos,
    }
}

// The end of a line: where its event happened.
pub(crate) fn put_end(
    alloc: Global,
    files: &[Text],
    pos: Pos,
    into: &mut Text,
) -> Result<(), NoMemory>
    ensures { OnOk result (into.new ≡ into.old ++ line_end files.now pos) }
{
    into.push_bytes(b" at ")?;
    put_place(alloc, files, pos, into)?;
    into.push_bytes(b"\n")
}

/// Puts the line of an entry at the end of a text. After an error the text may end in a part of the line.
pub(crate) fn put_entry(
    alloc: Global,
    p: &Program,
    files: &[Text],
    entry: Entry,
    into: &mut Text,
) -> Result<(), NoMemory>
    ensures { OnOk result (into.new ≡ into.old ++ entry_line p.now files.now entry) }
{
    put_event(alloc, p, entry, into)?;
    put_end(alloc, files, place_of(entry), into)
}
