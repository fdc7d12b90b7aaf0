//! Notes of calls.

ghost use Rattle.std.specs.Prelude.{◌≡◌};
ghost use Rattle.ledger_obligations.specs.Obligations.{has_note, is_of, note, same_note};

use rlc_base::NameId;

/// That a method of this name was called on an object.
#[derive(Clone, Copy)]
pub struct Note {
    /// The object's number.
    pub object: u64,
    pub name: NameId,
    /// The library has done what the method itself promises.
    pub kept: bool,
}

/// A note.
pub fn note_on(kept: bool, object: u64, name: NameId) -> Note
    ensures { result ≡ note kept object name }
{
    Note { object, name, kept }
}

fn same_note(a: Note, b: Note) -> bool
    ensures { result ≡ same_note a b }
{
    a.object == b.object && a.name.0 == b.name.0 && if a.kept { b.kept } else { !b.kept }
}

/// Whether the note is one of these.
pub(crate) fn has_note(notes: &[Note], a: Note) -> bool
    ensures { result ≡ has_note notes.now a }
{
    notes.iter().any(|b| same_note(a, *b))
}

// Whether the note speaks of the object with this number.
pub(crate) fn is_of(object: u64, a: Note) -> bool
    ensures { result ≡ is_of object a }
{
    a.object == object
}
