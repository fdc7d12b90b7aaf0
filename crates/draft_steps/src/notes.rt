//! Notes of calls, with all that follows from them.

ghost use Rattle.std.specs.Prelude.{◌≡◌, ◌++◌, true, IfOk, OnOk};
ghost use Rattle.draft_steps.specs.Steps.{numbers_in};
ghost use Rattle.heap_drafts.specs.Drafts.{Drafted};
ghost use Rattle.draft_lines.specs.Entries.{called_entries};
ghost use Rattle.ledger_obligations.specs.Obligations.{noted};
ghost use Rattle.spread_notes.specs.SpreadNotes.{NotedAs, put_each};

use draft_lines::add_called_lines;
use draft_stages::changes_after;
use heap_drafts::{SavedObject, save};
use ledger_obligations::Note;
use ledger_state::{Entry, Heap};
use program_model::Program;
use rlc_base::{NoMemory, Pos};
use spread_notes::{Numbered, noted_objects, put_each};
use std::alloc::Global;

fn numbers_in(alloc: Global, objects: &[Numbered]) -> Result<Vec<u64>, NoMemory>
    ensures { IfOk result (λ v. v.items ≡ numbers_in objects.now) }
{
    let mut numbers = Vec::new(alloc);
    'each: for object in objects {
        numbers.push(object.number)?;
    }
    Ok(numbers)
}

// Puts the objects that the notes reach in their places. Puts the lines behind the others.
fn note_found(
    alloc: Global,
    p: &Program,
    pos: Pos,
    notes: &[Note],
    objects: &[Numbered],
    heap: &mut Heap,
    saved: &mut Vec<SavedObject>,
    lines: &mut Vec<Entry>,
) -> Result<(), NoMemory>
    requires { NotedAs p.now heap.old notes.now objects.now }
    ensures heap { OnOk result (heap.new ≡ put_each objects.now heap.old) }
    ensures lines { OnOk result (lines.new.items ≡ lines.old.items ++ called_entries p.now pos heap.old (put_each objects.now heap.old)) }
    ensures drafted { Drafted saved.old.items heap.old saved.new.items heap.new }
{
    let from = saved.len();
    let numbers = numbers_in(alloc, objects)?;
    save(heap, &numbers, saved)?;
    put_each(heap, objects);
    let rows = changes_after(alloc, heap, saved, from)?;
    add_called_lines(alloc, p, pos, &rows, lines)?;
    Ok(())
}

/// The notes, and all that follow from them, join what was called. Puts the lines behind the others. Says whether it was done: it was
/// not, which no run comes to, where an object of which they speak is not there or gets unmet, or more follow than two for each object
/// and name.
pub fn draft_notes(
    alloc: Global,
    p: &Program,
    pos: Pos,
    notes: &[Note],
    heap: &mut Heap,
    saved: &mut Vec<SavedObject>,
    lines: &mut Vec<Entry>,
) -> Result<bool, NoMemory>
    ensures heap { IfOk result (λ b. b ≡ true → heap.new ≡ noted p.now notes.now heap.old) }
    ensures lines { IfOk result (λ b. b ≡ true → lines.new.items ≡ lines.old.items ++ called_entries p.now pos heap.old (noted p.now notes.now heap.old)) }
    ensures drafted { Drafted saved.old.items heap.old saved.new.items heap.new }
{
    let noted = noted_objects(alloc, p, heap, notes)?;
    match noted {
        None => Ok(false),
        Some(found) => {
            note_found(alloc, p, pos, notes, &found.objects, heap, saved, lines)?;
            Ok(true)
        }
    }
}
