//! Owning arguments that move.

ghost use Rattle.std.specs.Prelude.{◌≡◌, ◌++◌, true, IfOk, OnOk};
ghost use Rattle.heap_drafts.specs.Drafts.{Drafted, HasNumbers, numbers_rise, roots_of};
ghost use Rattle.ledger_calls.specs.Calls.{argument_values as values_of_arguments, arguments_moved};
ghost use Rattle.draft_lines.specs.Entries.{owner_entries};
ghost use Rattle.program_model.specs.Lookups.{method_at};

use crate::rows::changes_after;
use control_actions::Action;
use draft_lines::add_owner_lines;
use heap_drafts::{SavedObject, add_roots, rising, save};
use ledger_calls::{argument_values, move_arguments};
use ledger_state::{Entry, Heap, Locals, Owner};
use program_model::{MethodId, Program};
use rlc_base::{NoMemory, Pos};
use std::alloc::Global;

// The roots of the arguments, by their numbers.
fn argument_roots(
    alloc: Global,
    p: &Program,
    locals: &Locals,
    action: Action,
    named: MethodId,
    heap: &Heap,
) -> Result<Vec<u64>, NoMemory>
    ensures rise { IfOk result (λ v. numbers_rise 0 v.items ≡ true) }
    ensures all { IfOk result (λ v. HasNumbers (roots_of heap.now (values_of_arguments locals.now action (method_at p.now named))) v.items) }
{
    let values = argument_values(alloc, p, locals, action, named)?;
    let mut roots = Vec::new(alloc);
    add_roots(heap, &values, &mut roots)?;
    let once = rising(alloc, roots)?;
    Ok(once)
}

/// The owning arguments of the named signature move to the owner. Puts the lines behind the others.
pub fn draft_arguments(
    alloc: Global,
    p: &Program,
    pos: Pos,
    owner: Owner,
    locals: &Locals,
    action: Action,
    named: MethodId,
    heap: &mut Heap,
    saved: &mut Vec<SavedObject>,
    lines: &mut Vec<Entry>,
) -> Result<(), NoMemory>
    ensures heap { OnOk result (heap.new ≡ arguments_moved p.now owner locals.now action (method_at p.now named) heap.old) }
    ensures lines { OnOk result (lines.new.items ≡ lines.old.items ++ owner_entries p.now pos heap.old (arguments_moved p.now owner locals.now action (method_at p.now named) heap.old)) }
    ensures drafted { Drafted saved.old.items heap.old saved.new.items heap.new }
{
    let from = saved.len();
    let roots = argument_roots(alloc, p, locals, action, named, heap)?;
    save(heap, &roots, saved)?;
    move_arguments(p, owner, locals, action, named, heap);
    let rows = changes_after(alloc, heap, saved, from)?;
    add_owner_lines(p, pos, &rows, lines)?;
    Ok(())
}
