//! The arcs of one node.

ghost use Rattle.std.specs.Prelude.{◌≡◌, ◌+◌, ◌≤◌, ◌∷◌, [], max, length, IfOk, IfErr};
ghost use Rattle.std.specs.List.{AllZip};
ghost use Rattle.java_cfg.specs.Graphs.{numbers_in};
ghost use Rattle.java_cfg.specs.Order.{InOrder, counted};
ghost use Rattle.java_cfg.specs.Reach.{AreOnce};
ghost use Rattle.java_cfg.specs.Tables.{Grows, IsLinkCause, IsLinked, ends_of};

use crate::arc::Arc;
use crate::limits::MAX_NODES;
use indexmap::IndexSet;
use java_control::Triple;
use rlc_base::{Code, Pos, Refusal, Stop};
use std::alloc::Global;

// The arc of a step, to the place of what is left among the numbers, where it is put last if it is new.
fn link_one(numbers: &mut IndexSet<usize>, step: &Triple, pos: Pos) -> Result<Arc, Stop>
    ensures grows { Grows numbers.old.keys numbers.new.keys (step.now.to ∷ []) }
    ensures once { AreOnce numbers.new.keys }
    ensures arc { IfOk result (λ a. IsLinked numbers.new.keys a step.now) }
    ensures next { IfOk result (λ a. a.to ≤ length numbers.old.keys) }
    ensures count { IfOk result (λ a. length numbers.new.keys ≡ max (length numbers.old.keys) (a.to + 1)) }
    ensures few { IfOk result (λ _. length numbers.new.keys ≤ 65536) }
    ensures cause { IfErr result (λ stop. IsLinkCause pos (length numbers.new.keys) stop) }
{
    let (index, _) = numbers.insert_full(step.to)?;
    if numbers.len() > MAX_NODES {
        return Err(Refusal {
            code: Code::MethodTooLarge,
            pos,
        }
        .stop());
    }
    Ok(Arc {
        action: step.action,
        edge: step.edge,
        to: index as u32,
        pos: step.pos,
    })
}

/// The arcs of the steps, in order. What is left after them is put last among the numbers where it is new, in order too.
pub(crate) fn link(
    alloc: Global,
    numbers: &mut IndexSet<usize>,
    steps: &[Triple],
    pos: Pos,
) -> Result<Vec<Arc>, Stop>
    requires { length numbers.old.keys ≤ 65536 }
    ensures grows { Grows numbers.old.keys numbers.new.keys (ends_of steps.now) }
    ensures once { AreOnce numbers.new.keys }
    ensures arcs { IfOk result (λ row. AllZip (IsLinked numbers.new.keys) row.items steps.now) }
    ensures order { IfOk result (λ row. InOrder (length numbers.old.keys) (numbers_in row.items)) }
    ensures count { IfOk result (λ row. length numbers.new.keys ≡ counted (length numbers.old.keys) (numbers_in row.items)) }
    ensures few { IfOk result (λ _. length numbers.new.keys ≤ 65536) }
    ensures cause { IfErr result (λ stop. IsLinkCause pos (length numbers.new.keys) stop) }
{
    let _count = numbers.len();
    let mut row = Vec::new(alloc);
    for step in steps {
        row.push(link_one(numbers, step, pos)?)?;
    }
    Ok(row)
}
