//! What steps leave.

ghost use Rattle.std.specs.Prelude.{◌≡◌, true, false};
ghost use Rattle.draft_steps.specs.Steps.{drafted};
ghost use Rattle.drafted_heaps.specs.DraftedHeaps.{heap_left};
ghost use Rattle.ledger_state.specs.Contents.{HeapContents};

use crate::change::{DraftChange, HeapChange};
use draft_steps::DraftStep;
use ledger_state::Entry;
use ledger_steps::StepEffect;

/// What a step leaves of the heap, and the lines of the ledger that it writes. Where `settled` is true, no object is left to lose.
#[derive(Drop)]
pub struct StepResult {
    pub change: HeapChange,
    pub lines: Vec<Entry>,
    pub settled: bool,
}

/// What a step leaves that changes these objects.
pub fn draft_result(found: DraftStep) -> StepResult
    ensures heap { (h : HeapContents) → heap_left result.change h ≡ drafted found h }
    ensures lines { result.lines.items ≡ found.lines.items }
{
    let DraftStep {
        changes,
        made,
        stored,
        lines,
    } = found;
    let change = HeapChange::Drafted(DraftChange {
        changed: changes,
        made,
        stored,
    });
    StepResult {
        change,
        lines,
        settled: true,
    }
}

/// What a step leaves that was done on the whole heap.
pub fn whole_result(effect: StepEffect) -> StepResult
    ensures heap { (h : HeapContents) → heap_left result.change h ≡ effect.heap }
    ensures lines { result.lines.items ≡ effect.lines.items }
    ensures settled { result.settled ≡ false }
{
    let StepEffect { heap: after, lines } = effect;
    let change = HeapChange::Whole(after);
    StepResult {
        change,
        lines,
        settled: false,
    }
}
