//! Results that move to the caller's frame.

ghost use Rattle.std.specs.Prelude.{◌≡◌, ◌∷◌, ◌++◌, [], true, IfOk, OnOk};
ghost use Rattle.heap_drafts.specs.Drafts.{Drafted, HasNumbers, numbers_rise, roots_of};
ghost use Rattle.ledger_calls.specs.Conducts.{result_in};
ghost use Rattle.ledger_steps.specs.Entries.{owner_entries};
ghost use Rattle.ledger_steps.specs.Ends.{moved_as, moved_normally, result_moved};
ghost use Rattle.program_model.specs.Lookups.{method_at};

use draft_lines::add_owner_lines;
use draft_stages::changes_after;
use heap_drafts::{SavedObject, add_roots, rising, save};
use ledger_calls::{has_owning_result, is_alias, result_of};
use ledger_obligations::move_value;
use ledger_state::{Entry, Heap, Owner, Value};
use ledger_steps::FrameEnd;
use program_model::{MethodId, Program};
use rlc_base::{NoMemory, Pos};
use std::alloc::Global;

fn move_as(p: &Program, position: u64, method: MethodId, value: Value, heap: &mut Heap)
    ensures { heap.new ≡ moved_as p.now position (result_in (method_at p.now method)) value heap.old }
{
    if let Some(vtype) = result_of(p, method) {
        move_value(p, vtype, Owner::Frame(position), value, heap);
    }
}

fn move_normally(p: &Program, position: u64, method: MethodId, value: Value, heap: &mut Heap)
    ensures { heap.new ≡ moved_normally p.now position (method_at p.now method) value heap.old }
{
    if has_owning_result(p, method) && !is_alias(p, method) {
        move_as(p, position, method, value, heap);
    }
}

// An owning result that is no alias moves to the caller's frame, which is at this position.
fn move_result(p: &Program, position: u64, end: FrameEnd, heap: &mut Heap)
    ensures { heap.new ≡ result_moved p.now position (method_at p.now end.method) end.value end.thrown heap.old }
{
    match end.thrown {
        None => move_normally(p, position, end.method, end.value, heap),
        Some(_) => {}
    }
}

// The root of the value, where there is one.
fn root_of_value(alloc: Global, heap: &Heap, value: Value) -> Result<Vec<u64>, NoMemory>
    ensures rise { IfOk result (λ v. numbers_rise 0 v.items ≡ true) }
    ensures all { IfOk result (λ v. HasNumbers (roots_of heap.now (value ∷ [])) v.items) }
{
    let mut roots = Vec::new(alloc);
    add_roots(heap, &[value], &mut roots)?;
    let once = rising(alloc, roots)?;
    Ok(once)
}

/// An owning result of the frame that ends, which is no alias, moves to the caller's frame, which is at this position. Puts the lines
/// behind the others.
pub(crate) fn draft_result(
    alloc: Global,
    p: &Program,
    pos: Pos,
    position: u64,
    end: FrameEnd,
    heap: &mut Heap,
    saved: &mut Vec<SavedObject>,
    lines: &mut Vec<Entry>,
) -> Result<(), NoMemory>
    ensures heap { OnOk result (heap.new ≡ result_moved p.now position (method_at p.now end.method) end.value end.thrown heap.old) }
    ensures lines { OnOk result (lines.new.items ≡ lines.old.items ++ owner_entries p.now pos heap.old (result_moved p.now position (method_at p.now end.method) end.value end.thrown heap.old)) }
    ensures drafted { Drafted saved.old.items heap.old saved.new.items heap.new }
{
    let from = saved.len();
    let roots = root_of_value(alloc, heap, end.value)?;
    save(heap, &roots, saved)?;
    move_result(p, position, end, heap);
    let rows = changes_after(alloc, heap, saved, from)?;
    add_owner_lines(p, pos, &rows, lines)?;
    Ok(())
}
