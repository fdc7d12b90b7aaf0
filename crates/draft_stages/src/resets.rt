//! Resets.

ghost use Rattle.std.specs.Prelude.{◌≡◌, ◌++◌, true, IfOk, OnOk};
ghost use Rattle.draft_stages.specs.Stages.{AllWithRoots, IndexedRest};
ghost use Rattle.heap_drafts.specs.Drafts.{Drafted};
ghost use Rattle.draft_lines.specs.Entries.{reset_entries};
ghost use Rattle.ledger_obligations.specs.Obligations.{reached, reset_roots};

use crate::aliases::reached_objects;
use crate::rows::changes_after;
use draft_lines::add_reset_lines;
use heap_drafts::{SavedObject, reset_among};
use ledger_obligations::reached;
use ledger_state::{Entry, Heap};
use object_index::ObjectIndex;
use program_model::Program;
use rlc_base::{NoMemory, Pos};
use std::alloc::Global;

// The obligations of the roots are created anew, where these are the objects that have one of them. Puts the lines behind the others.
fn reset_found(
    alloc: Global,
    p: &Program,
    pos: Pos,
    roots: &[u64],
    numbers: &[u64],
    heap: &mut Heap,
    saved: &mut Vec<SavedObject>,
    lines: &mut Vec<Entry>,
) -> Result<(), NoMemory>
    requires { AllWithRoots heap.old roots.now numbers.now }
    ensures heap { OnOk result (heap.new ≡ reset_roots p.now roots.now heap.old) }
    ensures lines { OnOk result (lines.new.items ≡ lines.old.items ++ reset_entries p.now pos roots.now heap.old) }
    ensures drafted { Drafted saved.old.items heap.old saved.new.items heap.new }
{
    let from = saved.len();
    reset_among(alloc, p, heap, roots, numbers, saved)?;
    let rows = changes_after(alloc, heap, saved, from)?;
    add_reset_lines(p, pos, &rows, lines)?;
    Ok(())
}

/// The obligations of the roots are created anew, where the index knows of all objects that were not saved to what they are linked.
/// Puts the lines behind the others. Says whether it was done: it was not where the index goes in circles.
pub fn draft_reset_roots(
    alloc: Global,
    p: &Program,
    pos: Pos,
    roots: &[u64],
    index: &ObjectIndex,
    heap: &mut Heap,
    saved: &mut Vec<SavedObject>,
    lines: &mut Vec<Entry>,
) -> Result<bool, NoMemory>
    requires { IndexedRest index.now saved.old.items heap.old }
    ensures heap { IfOk result (λ b. b ≡ true → heap.new ≡ reset_roots p.now roots.now heap.old) }
    ensures lines { IfOk result (λ b. b ≡ true → lines.new.items ≡ lines.old.items ++ reset_entries p.now pos roots.now heap.old) }
    ensures drafted { Drafted saved.old.items heap.old saved.new.items heap.new }
{
    match reached_objects(alloc, heap, index, roots, saved)? {
        None => Ok(false),
        Some(numbers) => {
            reset_found(alloc, p, pos, roots, &numbers, heap, saved, lines)?;
            Ok(true)
        }
    }
}

/// The obligations that a reset of the object reaches are created anew, as by `draft_reset_roots`.
pub fn draft_reset(
    alloc: Global,
    p: &Program,
    pos: Pos,
    target: Option<u64>,
    index: &ObjectIndex,
    heap: &mut Heap,
    saved: &mut Vec<SavedObject>,
    lines: &mut Vec<Entry>,
) -> Result<bool, NoMemory>
    requires { IndexedRest index.now saved.old.items heap.old }
    ensures heap { IfOk result (λ b. b ≡ true → heap.new ≡ reset_roots p.now (reached heap.old target) heap.old) }
    ensures lines { IfOk result (λ b. b ≡ true → lines.new.items ≡ lines.old.items ++ reset_entries p.now pos (reached heap.old target) heap.old) }
    ensures drafted { Drafted saved.old.items heap.old saved.new.items heap.new }
{
    let roots = reached(alloc, heap, target)?;
    let done = draft_reset_roots(alloc, p, pos, &roots, index, heap, saved, lines)?;
    Ok(done)
}
