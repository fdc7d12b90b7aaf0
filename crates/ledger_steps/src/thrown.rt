//! Exceptions that operations throw of themselves.

ghost use Rattle.std.specs.Prelude.{◌≡◌, IfOk, OnOk};
ghost use Rattle.ledger_obligations.specs.Obligations.{finished};
ghost use Rattle.ledger_state.specs.declared.entry.Owner.TheVariants as owners;
ghost use Rattle.ledger_state.specs.Heaps.{change_one};
ghost use Rattle.ledger_steps.specs.InnerSteps.{thrown_heap, thrown_value, with_exception};
ghost use Rattle.must_call_sets.specs.MustCallSets.{must_of};

use ledger_obligations::finished;
use ledger_state::{Heap, Owner, Value};
use must_call_sets::must;
use program_model::{ClassId, Program};
use rlc_base::NoMemory;
use std::alloc::Global;

// The exception with this number gets the set of its class, and the library owns it.
#[tactic(auto, using(ledger_obligations::proofs::ChangeLaws::change_absent))]
fn finish_exception(p: &Program, class: ClassId, number: u64, heap: &mut Heap)
    ensures { heap.new ≡ change_one number (finished (must_of p.now class) owners.Library) heap.old }
{
    if let Some(x) = heap.object(number) {
        heap.put(number, finished(must(p, class), Owner::Library, x));
    }
}

fn add_exception(p: &Program, class: ClassId, heap: &mut Heap) -> Result<(), NoMemory>
    ensures { OnOk result (heap.new ≡ with_exception p.now class heap.old) }
{
    let number = heap.next_number();
    heap.append(class)?;
    finish_exception(p, class, number, heap);
    Ok(())
}

// The heap with the exception that the operation throws, where it throws one.
pub(crate) fn thrown_heap(
    alloc: Global,
    p: &Program,
    thrown: Option<ClassId>,
    heap: &Heap,
) -> Result<Heap, NoMemory>
    ensures { IfOk result (λ h. h ≡ thrown_heap p.now thrown heap.now) }
{
    let mut after = heap.copy(alloc)?;
    if let Some(class) = thrown {
        add_exception(p, class, &mut after)?;
    }
    Ok(after)
}

/// The value that an operation gives: the exception that it throws, where it throws one.
pub fn thrown_value(heap: &Heap, thrown: Option<ClassId>, made: Value) -> Value
    ensures { result ≡ thrown_value heap.now thrown made }
{
    match thrown {
        None => made,
        Some(_) => Value::Object(heap.next_number()),
    }
}
