//! Numbers of objects that rise.

ghost use Rattle.std.specs.Prelude.{◌≡◌, ◌++◌, true, IfOk, OnOk};
ghost use Rattle.std.specs.List.Sorted.{IsNonDecreasing};
ghost use Rattle.heap_drafts.specs.Drafts.{HasNumbers, later, numbers_rise, roots_of, with_beyond};

use ledger_state::{Heap, Value};
use rlc_base::NoMemory;
use std::alloc::Global;

// Puts the number behind the others where it is beyond the last one. The last one then.
fn push_beyond(once: &mut Vec<u64>, last: u64, number: u64) -> Result<u64, NoMemory>
    ensures once { OnOk result (once.new.items ≡ with_beyond last number once.old.items) }
    ensures last { IfOk result (λ n. n ≡ later last number) }
{
    if last < number {
        once.push(number)?;
        Ok(number)
    } else {
        Ok(last)
    }
}

// Each of the sorted numbers but 0, once.
fn each_once(alloc: Global, sorted: &[u64]) -> Result<Vec<u64>, NoMemory>
    requires { IsNonDecreasing sorted.now }
    ensures rises { IfOk result (λ v. numbers_rise 0 v.items ≡ true) }
    ensures all { IfOk result (λ v. HasNumbers sorted.now v.items) }
{
    let mut once = Vec::new(alloc);
    let mut last = 0;
    'each: for number in sorted {
        last = push_beyond(&mut once, last, *number)?;
    }
    Ok(once)
}

/// The numbers, but 0, each once and in their order.
pub fn rising(alloc: Global, numbers: Vec<u64>) -> Result<Vec<u64>, NoMemory>
    ensures rises { IfOk result (λ v. numbers_rise 0 v.items ≡ true) }
    ensures all { IfOk result (λ v. HasNumbers numbers.items v.items) }
{
    let mut sorted = numbers;
    sorted.sort()?;
    let once = each_once(alloc, &sorted)?;
    Ok(once)
}

/// Puts the roots of the values at the end of the list.
pub fn add_roots(heap: &Heap, values: &[Value], into: &mut Vec<u64>) -> Result<(), NoMemory>
    ensures { OnOk result (into.new.items ≡ into.old.items ++ roots_of heap.now values.now) }
{
    'each: for value in values {
        if let Some(root) = heap.root_of(*value) {
            into.push(root)?;
        }
    }
    Ok(())
}
