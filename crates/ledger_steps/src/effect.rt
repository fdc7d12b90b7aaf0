//! What a step leaves of the heap.

ghost use Rattle.std.specs.Prelude.{◌≡◌, ◌∷◌, ◌++◌, map, reverse, IfOk};
ghost use Rattle.ledger_obligations.specs.Obligations.{held_in, lose};
ghost use Rattle.ledger_state.specs.Locals.{held};
ghost use Rattle.ledger_steps.specs.Effects.{left};

use ledger_entries::{by_number, leak_entries};
use ledger_obligations::{ActiveFrame, lose};
use ledger_state::{Entry, Heap, LeakWord, Locals};
use program_model::Program;
use rlc_base::{NoMemory, Pos};
use std::alloc::Global;

/// The heap after a step, and the lines of the ledger that the step writes.
#[derive(Drop)]
pub struct StepEffect {
    pub heap: Heap,
    pub lines: Vec<Entry>,
}

fn with_lost(
    alloc: Global,
    top: &Locals,
    below: &[ActiveFrame],
    heap: &Heap,
) -> Result<Heap, NoMemory>
    ensures { IfOk result (λ h. h ≡ lose (held top.now ∷ map held_in (reverse below.now)) heap.now) }
{
    let mut left = heap.copy(alloc)?;
    lose(alloc, top, below, &mut left)?;
    Ok(left)
}

/// The end of a step: what no place holds any more is lost, and the step's leaks stand behind its other lines, by the objects'
/// numbers. The values of the frame that is then on top stand apart from the frames below it, of which that of `main` is the
/// first.
pub fn left(
    alloc: Global,
    p: &Program,
    pos: Pos,
    top: &Locals,
    below: &[ActiveFrame],
    heap: &Heap,
    lines: Vec<Entry>,
    leaks: Vec<Entry>,
) -> Result<StepEffect, NoMemory>
    ensures heap { IfOk result (λ e. e.heap ≡ (left p.now pos (held top.now ∷ map held_in (reverse below.now)) lines.items leaks.items heap.now).heap) }
    ensures lines { IfOk result (λ e. e.lines.items ≡ (left p.now pos (held top.now ∷ map held_in (reverse below.now)) lines.items leaks.items heap.now).lines) }
{
    let after = with_lost(alloc, top, below, heap)?;
    let mut every_leak = leaks;
    leak_entries(p, LeakWord::Lost, pos, heap, &after, &mut every_leak)?;
    let mut every_line = lines;
    by_number(&after, &every_leak, &mut every_line)?;
    Ok(StepEffect {
        heap: after,
        lines: every_line,
    })
}
