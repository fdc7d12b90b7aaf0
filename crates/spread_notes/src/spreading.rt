//! All that follows from the notes of a call's end.

ghost use Rattle.std.specs.Prelude.{◌≡◌, ◌≤◌, [], IfOk, IfSome, OnOk, take, true, vec_len};
ghost use Rattle.std.specs.List.{flat_map};
ghost use Rattle.ledger_obligations.specs.Obligations.{follows, joined};
ghost use Rattle.spread_notes.specs.SpreadNotes.{HasFollows, SpreadsTo};

use crate::follows::{all_follows, join};
use ledger_obligations::Note;
use ledger_state::Heap;
use program_model::Program;
use rlc_base::NoMemory;
use std::alloc::Global;

/// Notes, and all that follow from them.
#[derive(Drop)]
pub(crate) struct SpreadNotes {
    pub(crate) notes: Vec<Note>,
}

// Lets notes join what follows from them, where what follows from the first `done` is among them.
fn turn(
    alloc: Global,
    p: &Program,
    heap: &Heap,
    done: usize,
    notes: &mut Vec<Note>,
) -> Result<(), NoMemory>
    requires within { done ≤ vec_len notes.old }
    requires done { HasFollows p.now heap.now (take done notes.old.items) notes.old.items }
    ensures { OnOk result (notes.new.items ≡ joined notes.old.items (flat_map (follows p.now heap.now) notes.old.items)) }
{
    let further = all_follows(alloc, p, heap, &notes.as_slice()[done..])?;
    join(notes, &further)?;
    Ok(())
}

// Lets notes join all that follows from them, until a turn adds none; a turn looks only at those that the one before it added. Says
// whether one that adds none was reached.
fn spread(alloc: Global, p: &Program, heap: &Heap, notes: &mut Vec<Note>) -> Result<bool, NoMemory>
    ensures { IfOk result (λ b. b ≡ true → SpreadsTo p.now heap.now notes.old.items notes.new.items) }
{
    let mut done = 0usize;
    'turns: for _turn in 0..256 * heap.objects.len() as u128 + 1 {
        let before = notes.len();
        turn(alloc, p, heap, done, notes)?;
        if notes.len() == before {
            return Ok(true);
        }
        done = before;
    }
    Ok(false)
}

/// All notes that follow from these, each once. None where turns go on to add notes beyond two for each object and name.
pub(crate) fn spread_notes(
    alloc: Global,
    p: &Program,
    heap: &Heap,
    first: &[Note],
) -> Result<Option<SpreadNotes>, NoMemory>
    ensures { IfOk result (λ o. IfSome o (λ s. SpreadsTo p.now heap.now (joined [] first.now) s.notes.items)) }
{
    let mut all = Vec::new(alloc);
    join(&mut all, first)?;
    if !spread(alloc, p, heap, &mut all)? {
        return Ok(None);
    }
    Ok(Some(SpreadNotes { notes: all }))
}
