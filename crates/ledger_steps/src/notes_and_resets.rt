//! What each end of a call does: it is noted, and then the signature's reset is done.

ghost use Rattle.std.specs.Prelude.{◌≡◌, ◌++◌, IfOk, OnOk};
ghost use Rattle.ledger_entries.specs.Entries.{called_entries, reset_entries};
ghost use Rattle.ledger_obligations.specs.Obligations.{noted, reached, reset_roots};

use ledger_entries::{called_entries, reset_entries};
use ledger_obligations::{Note, note_calls, reached, reset_roots};
use ledger_state::{Entry, Heap};
use program_model::Program;
use rlc_base::{NoMemory, Pos};
use std::alloc::Global;

fn noted(alloc: Global, p: &Program, notes: &[Note], heap: &Heap) -> Result<Heap, NoMemory>
    ensures { IfOk result (λ h. h ≡ noted p.now notes.now heap.now) }
{
    let mut after = heap.copy(alloc)?;
    note_calls(alloc, p, notes, &mut after)?;
    Ok(after)
}

fn with_reset(alloc: Global, p: &Program, roots: &[u64], heap: &Heap) -> Result<Heap, NoMemory>
    ensures { IfOk result (λ h. h ≡ reset_roots p.now roots.now heap.now) }
{
    let mut after = heap.copy(alloc)?;
    reset_roots(alloc, p, roots, &mut after)?;
    Ok(after)
}

/// The heap when the call is noted, with all that follows, and the object's obligation is then created anew. Puts the lines of
/// both at the end of the list.
pub(crate) fn note_and_reset(
    alloc: Global,
    p: &Program,
    pos: Pos,
    notes: &[Note],
    target: Option<u64>,
    heap: &Heap,
    lines: &mut Vec<Entry>,
) -> Result<Heap, NoMemory>
    ensures heap { IfOk result (λ h. h ≡ reset_roots p.now (reached (noted p.now notes.now heap.now) target) (noted p.now notes.now heap.now)) }
    ensures lines { OnOk result (lines.new.items ≡ lines.old.items ++ (called_entries p.now pos heap.now (noted p.now notes.now heap.now) ++ reset_entries p.now pos (reached (noted p.now notes.now heap.now) target) (noted p.now notes.now heap.now))) }
{
    let called = noted(alloc, p, notes, heap)?;
    let roots = reached(alloc, &called, target)?;
    called_entries(alloc, p, pos, heap, &called, lines)?;
    reset_entries(p, pos, &roots, &called, lines)?;
    with_reset(alloc, p, &roots, &called)
}
