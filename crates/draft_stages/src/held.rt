//! The roots of what a frame holds.

ghost use Rattle.std.specs.Prelude.{◌≡◌, ◌++◌, IfOk, OnOk};
ghost use Rattle.heap_drafts.specs.Drafts.{root_in, roots_of};
ghost use Rattle.ledger_state.specs.Locals.{held};

use heap_drafts::add_roots;
use ledger_state::{Heap, Locals, Value};
use rlc_base::NoMemory;
use std::alloc::Global;

fn add_root(heap: &Heap, value: Value, into: &mut Vec<u64>) -> Result<(), NoMemory>
    ensures { OnOk result (into.new.items ≡ into.old.items ++ root_in heap.now value) }
{
    match heap.root_of(value) {
        None => Ok(()),
        Some(root) => {
            into.push(root)?;
            Ok(())
        }
    }
}

/// The roots of what the places of the frame hold.
pub fn held_roots(alloc: Global, heap: &Heap, locals: &Locals) -> Result<Vec<u64>, NoMemory>
    ensures { IfOk result (λ v. v.items ≡ roots_of heap.now (held locals.now)) }
{
    let mut roots = Vec::new(alloc);
    add_root(heap, locals.this, &mut roots)?;
    add_roots(heap, locals.variables.as_slice(), &mut roots)?;
    add_roots(heap, locals.temps.as_slice(), &mut roots)?;
    Ok(roots)
}
