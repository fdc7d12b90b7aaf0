//! Frames that end, and what they give up.

ghost use Rattle.std.specs.Prelude.{◌≡◌, ◌+◌, ◌<◌, ◌^◌, ◌++◌, [], Some, OnOk};
ghost use Rattle.draft_lines.specs.DraftLines.{AllOfHeap, leak_entries_of};
ghost use Rattle.draft_returns.specs.DraftReturns.{ListedRest, OwnedSaved, holder_ended};
ghost use Rattle.draft_stages.specs.Stages.{IndexedRest};
ghost use Rattle.heap_drafts.specs.Drafts.{Drafted};
ghost use Rattle.ledger_steps.specs.Entries.{leak_entries, owner_entries};
ghost use Rattle.ledger_obligations.specs.Obligations.{end_frame, end_holder};
ghost use Rattle.ledger_state.specs.declared.entry.LeakWord.TheVariants as words;
ghost use Rattle.ledger_steps.specs.Ends.{constructor_ended, frame_end_leaks, frame_ended, frame_gone, result_moved};
ghost use Rattle.must_call_sets.specs.Bodies.{constructs};
ghost use Rattle.program_model.specs.Lookups.{method_at};

use crate::results::draft_result;
use draft_lines::{Leak, add_leaks};
use draft_stages::{candidates, changes_after};
use heap_drafts::{SavedObject, end_frame_among, end_holder_among};
use ledger_state::{Entry, Heap, LeakWord};
use ledger_steps::FrameEnd;
use must_call_sets::is_constructor_kind;
use object_index::ObjectIndex;
use program_model::{MethodId, Program};
use rlc_base::{NoMemory, Pos};
use std::alloc::Global;

/// The frame at the position gives up what it owns, where each such object was saved or is one of these. Puts its leaks behind the
/// others.
pub(crate) fn draft_frame_end(
    alloc: Global,
    p: &Program,
    pos: Pos,
    position: u64,
    listed: &[u64],
    heap: &mut Heap,
    saved: &mut Vec<SavedObject>,
    leaks: &mut Vec<Leak>,
) -> Result<(), NoMemory>
    requires listed { ListedRest position listed.now saved.old.items heap.old }
    requires leaks { AllOfHeap heap.old leaks.old.items }
    ensures heap { OnOk result (heap.new ≡ end_frame position heap.old) }
    ensures leaks { OnOk result (leak_entries_of leaks.new.items ≡ leak_entries_of leaks.old.items ++ leak_entries p.now words.Exit pos heap.old (end_frame position heap.old)) }
    ensures there { OnOk result (AllOfHeap heap.new leaks.new.items) }
    ensures owned { OnOk result (OwnedSaved position saved.new.items heap.old) }
    ensures drafted { Drafted saved.old.items heap.old saved.new.items heap.new }
{
    let from = saved.len();
    let numbers = candidates(alloc, listed, saved)?;
    end_frame_among(alloc, heap, position, &numbers, saved)?;
    let rows = changes_after(alloc, heap, saved, from)?;
    add_leaks(p, LeakWord::Exit, pos, &rows, leaks)?;
    Ok(())
}

// The fields of the holder give up what they own, where the index knows of what was not saved. Puts their leaks behind the others.
fn draft_holder_end(
    alloc: Global,
    p: &Program,
    pos: Pos,
    holder: u64,
    index: &ObjectIndex,
    heap: &mut Heap,
    saved: &mut Vec<SavedObject>,
    leaks: &mut Vec<Leak>,
) -> Result<(), NoMemory>
    requires indexed { IndexedRest index.now saved.old.items heap.old }
    requires leaks { AllOfHeap heap.old leaks.old.items }
    ensures heap { OnOk result (heap.new ≡ end_holder (Some holder) heap.old) }
    ensures leaks { OnOk result (leak_entries_of leaks.new.items ≡ leak_entries_of leaks.old.items ++ leak_entries p.now words.ConstructorThrow pos heap.old (end_holder (Some holder) heap.old)) }
    ensures there { OnOk result (AllOfHeap heap.new leaks.new.items) }
    ensures drafted { Drafted saved.old.items heap.old saved.new.items heap.new }
{
    let from = saved.len();
    let numbers = candidates(alloc, index.contents_of(holder), saved)?;
    end_holder_among(alloc, heap, holder, &numbers, saved)?;
    let rows = changes_after(alloc, heap, saved, from)?;
    add_leaks(p, LeakWord::ConstructorThrow, pos, &rows, leaks)?;
    Ok(())
}

fn constructs(p: &Program, method: MethodId) -> bool
    ensures { result ≡ constructs (method_at p.now method) }
{
    match p.method(method) {
        None => false,
        Some(m) => is_constructor_kind(m.kind),
    }
}

// The holder whose fields give up what they own: the object of a constructor that ends by an exception.
fn ended_holder(p: &Program, end: FrameEnd) -> Option<u64>
    ensures { result ≡ holder_ended end.this (method_at p.now end.method) end.thrown }
{
    match end.thrown {
        None => None,
        Some(_) => {
            if constructs(p, end.method) {
                end.this.object()
            } else {
                None
            }
        }
    }
}

// What the owning fields of a constructor's `this` own is given up, where it ends by an exception. Puts the leaks behind the others.
fn draft_constructor_end(
    alloc: Global,
    p: &Program,
    end: FrameEnd,
    index: &ObjectIndex,
    heap: &mut Heap,
    saved: &mut Vec<SavedObject>,
    leaks: &mut Vec<Leak>,
) -> Result<(), NoMemory>
    requires indexed { IndexedRest index.now saved.old.items heap.old }
    requires leaks { AllOfHeap heap.old leaks.old.items }
    ensures heap { OnOk result (heap.new ≡ constructor_ended end.this (method_at p.now end.method) end.thrown heap.old) }
    ensures leaks { OnOk result (leak_entries_of leaks.new.items ≡ leak_entries_of leaks.old.items ++ leak_entries p.now words.ConstructorThrow end.pos heap.old (constructor_ended end.this (method_at p.now end.method) end.thrown heap.old)) }
    ensures there { OnOk result (AllOfHeap heap.new leaks.new.items) }
    ensures drafted { Drafted saved.old.items heap.old saved.new.items heap.new }
{
    match ended_holder(p, end) {
        None => Ok(()),
        Some(holder) => {
            draft_holder_end(alloc, p, end.pos, holder, index, heap, saved, leaks)?;
            Ok(())
        }
    }
}

/// The frame above the caller's, which is at this position, has gone: its result has moved, and what it owns is given up, and what a
/// constructor's `this` owns that ends by an exception. Puts the lines of the result and the leaks behind the others. The index and the
/// list know of what was not saved.
pub(crate) fn draft_frame_gone(
    alloc: Global,
    p: &Program,
    pos: Pos,
    position: u64,
    end: FrameEnd,
    listed: &[u64],
    index: &ObjectIndex,
    heap: &mut Heap,
    saved: &mut Vec<SavedObject>,
    lines: &mut Vec<Entry>,
    leaks: &mut Vec<Leak>,
) -> Result<(), NoMemory>
    requires small { position + 1 < 2 ^ 64 }
    requires listed { ListedRest (position + 1) listed.now saved.old.items heap.old }
    requires indexed { IndexedRest index.now saved.old.items heap.old }
    requires leaks { leaks.old.items ≡ [] }
    ensures heap { OnOk result (heap.new ≡ frame_gone p.now position end.this (method_at p.now end.method) end.value end.thrown heap.old) }
    ensures lines { OnOk result (lines.new.items ≡ lines.old.items ++ owner_entries p.now pos heap.old (result_moved p.now position (method_at p.now end.method) end.value end.thrown heap.old)) }
    ensures leaks { OnOk result (leak_entries_of leaks.new.items ≡ frame_end_leaks p.now end.pos position end.this (method_at p.now end.method) end.value end.thrown heap.old) }
    ensures there { OnOk result (AllOfHeap heap.new leaks.new.items) }
    ensures owned { OnOk result (OwnedSaved (position + 1) saved.new.items heap.old) }
    ensures drafted { Drafted saved.old.items heap.old saved.new.items heap.new }
{
    draft_result(alloc, p, pos, position, end, heap, saved, lines)?;
    draft_frame_end(alloc, p, end.pos, position + 1, listed, heap, saved, leaks)?;
    draft_constructor_end(alloc, p, end, index, heap, saved, leaks)?;
    Ok(())
}
