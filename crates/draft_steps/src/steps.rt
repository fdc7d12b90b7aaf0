//! What a step changes of the heap, apart from it.

ghost use Rattle.std.specs.Prelude.{◌≡◌, ◌+◌, IfOk, IfSome};
ghost use Rattle.draft_steps.specs.Steps.{IsDrafted, IsDraftedBy, numbered_in};

use draft_stages::candidates;
use heap_drafts::SavedObject;
use ledger_state::{Entry, Heap, Object, StoredField};
use rlc_base::NoMemory;
use spread_notes::Numbered;
use std::alloc::Global;

/// What a step changes of the heap, and the lines of the ledger that it writes.
#[derive(Drop)]
pub struct DraftStep {
    /// The objects as they are after the step; their numbers rise.
    pub changes: Vec<Numbered>,
    /// An object more, where the step makes one. It may be among the changes too, as it is after the step.
    pub made: Option<Object>,
    /// A value that is stored.
    pub stored: Option<StoredField>,
    pub lines: Vec<Entry>,
}

// These objects as they are.
fn numbered_in(alloc: Global, heap: &Heap, numbers: &[u64]) -> Result<Vec<Numbered>, NoMemory>
    ensures { IfOk result (λ v. v.items ≡ numbered_in heap.now numbers.now) }
{
    let mut objects = Vec::new(alloc);
    'each: for number in numbers {
        if let Some(object) = heap.object(*number) {
            objects.push(Numbered {
                number: *number,
                object,
            })?;
        }
    }
    Ok(objects)
}

// What the step changed of a heap that had so many objects, `next` being one more, and now is this one, where these objects were saved.
// None where more than one object was made.
fn made_step(
    alloc: Global,
    heap: &Heap,
    count: usize,
    next: usize,
    saved: &[SavedObject],
    lines: Vec<Entry>,
) -> Result<Option<DraftStep>, NoMemory>
    requires { next ≡ count + 1 }
    ensures { IfOk result (λ o. IfSome o (λ d. IsDrafted d count saved.now heap.now lines.items)) }
{
    let numbers = candidates(alloc, &[], saved)?;
    let changes = numbered_in(alloc, heap, &numbers)?;
    if heap.objects.len() > next {
        return Ok(None);
    }
    Ok(Some(DraftStep {
        changes,
        made: heap.object(next as u64),
        stored: None,
        lines,
    }))
}

fn drafted_step(
    alloc: Global,
    heap: &Heap,
    count: usize,
    saved: &[SavedObject],
    lines: Vec<Entry>,
) -> Result<Option<DraftStep>, NoMemory>
    ensures { IfOk result (λ o. IfSome o (λ d. IsDrafted d count saved.now heap.now lines.items)) }
{
    match count.checked_add(1) {
        None => Ok(None),
        Some(next) => made_step(alloc, heap, count, next, saved, lines),
    }
}

/// What the step changed, where it gave these lines; it made none where it was not done.
pub fn step_of(
    alloc: Global,
    heap: &Heap,
    count: usize,
    saved: &[SavedObject],
    lines: Result<Option<Vec<Entry>>, NoMemory>,
) -> Result<Option<DraftStep>, NoMemory>
    ensures { IfOk result (λ o. IfSome o (λ d. IsDraftedBy d count saved.now heap.now lines)) }
{
    match lines {
        Ok(Some(found)) => drafted_step(alloc, heap, count, saved, found),
        Ok(None) => Ok(None),
        Err(error) => Err(error),
    }
}
