//! The end of a step.

ghost use Rattle.std.specs.Prelude.{◌≡◌, ◌∷◌, ◌++◌, ℕ, Some, false, map, reverse, true, IfOk, IfSome};
ghost use Rattle.draft_lines.specs.DraftLines.{AllOfHeap, leak_entries_of};
ghost use Rattle.draft_stages.specs.Stages.{saved_numbers};
ghost use Rattle.heap_drafts.specs.Drafts.{Drafted, HasNumbers, is_saved, numbers_rise};
ghost use Rattle.ledger_obligations.specs.Obligations.{held_in, lose};
ghost use Rattle.ledger_state.specs.declared.object.Object.{Object as Found};
ghost use Rattle.ledger_state.specs.Heaps.{has_number, object_at};
ghost use Rattle.ledger_state.specs.Locals.{held};
ghost use Rattle.draft_lines.specs.Entries.{by_number, leak_entries};
ghost use Rattle.ledger_state.specs.declared.entry.LeakWord.TheVariants as words;
ghost use Rattle.heap_drafts.specs.Settled.{Settled, is_settled};

use crate::aliases::add_saved;
use crate::rows::changes_after;
use draft_lines::{Leak, add_by_number, add_leaks};
use heap_drafts::{SavedObject, lose_among, rising};
use ledger_obligations::ActiveFrame;
use ledger_state::{Entry, Heap, LeakWord, Locals};
use program_model::Program;
use rlc_base::{NoMemory, Pos};
use std::alloc::Global;

/// The numbers of the objects that were saved, and these, each once and in their order.
pub fn candidates(alloc: Global, roots: &[u64], saved: &[SavedObject]) -> Result<Vec<u64>, NoMemory>
    ensures rise { IfOk result (λ v. numbers_rise 0 v.items ≡ true) }
    ensures roots { IfOk result (λ v. HasNumbers roots.now v.items) }
    ensures saved { IfOk result (λ v. HasNumbers (saved_numbers saved.now) v.items) }
{
    let mut numbers = Vec::from_slice(alloc, roots)?;
    add_saved(saved, &mut numbers)?;
    let once = rising(alloc, numbers)?;
    Ok(once)
}

/// The end of a step: what no place holds any more is lost, and the leaks stand behind the other lines, by the objects' numbers. Each
/// object that was not saved and is none of the roots is met or kept by its owner. The lines, or none where a frame owns an unmet
/// alias, which no step leaves.
pub fn draft_end(
    alloc: Global,
    p: &Program,
    pos: Pos,
    top: &Locals,
    below: &[ActiveFrame],
    roots: &[u64],
    heap: &mut Heap,
    saved: &mut Vec<SavedObject>,
    lines: Vec<Entry>,
    leaks: Vec<Leak>,
) -> Result<Option<Vec<Entry>>, NoMemory>
    requires rest { (k : ℕ) (x : Found) → object_at heap.old k ≡ Some x → is_saved saved.old.items k ≡ false → has_number roots.now k ≡ false → is_settled heap.old (held top.now ∷ map held_in (reverse below.now)) k x ≡ true }
    requires leaks { AllOfHeap heap.old leaks.items }
    ensures heap { IfOk result (λ o. IfSome o (λ v. heap.new ≡ lose (held top.now ∷ map held_in (reverse below.now)) heap.old)) }
    ensures lines { IfOk result (λ o. IfSome o (λ v. v.items ≡ lines.items ++ by_number (lose (held top.now ∷ map held_in (reverse below.now)) heap.old) (leak_entries_of leaks.items ++ leak_entries p.now words.Lost pos heap.old (lose (held top.now ∷ map held_in (reverse below.now)) heap.old)))) }
    ensures settled { IfOk result (λ o. IfSome o (λ v. Settled heap.new (held top.now ∷ map held_in (reverse below.now)))) }
    ensures drafted { Drafted saved.old.items heap.old saved.new.items heap.new }
{
    let from = saved.len();
    let numbers = candidates(alloc, roots, saved)?;
    if !lose_among(alloc, heap, top, below, &numbers, saved)? {
        return Ok(None);
    }
    let rows = changes_after(alloc, heap, saved, from)?;
    let mut every_leak = leaks;
    add_leaks(p, LeakWord::Lost, pos, &rows, &mut every_leak)?;
    let mut every_line = lines;
    add_by_number(every_leak, &mut every_line)?;
    Ok(Some(every_line))
}
