//! The steps by the arcs of a node.

ghost use Rattle.std.specs.Prelude.{◌≡◌, ◌<◌, ◌^◌, ℕ, length};
ghost use Rattle.std.specs.List.{list_any};
ghost use Rattle.breadth_first.specs.Searches.{IsAt};
ghost use Rattle.must_call_sets.specs.WellFormed.{HasSmallInterests};
ghost use Rattle.obligation_facts.specs.SmallActions.{IsSmallAction};
ghost use Rattle.flow_rules.specs.Room.{HasRoom};
ghost use Rattle.java_cfg.specs.declared.arc.Arc.{Arc as DeclaredArc};
ghost use Rattle.obligation_paths.specs.Origins.{arc_births};
ghost use Rattle.fault_paths.specs.Tests.{can_break_by, can_lead_by};

use crate::steps::{can_break_by, can_lead_by};
use fault_order::FaultAt;
use flow_rules::PathStep;
use java_cfg::Arc;
use java_control::Origin;
use program_model::{BodyId, Program};

// Whether the step by some arc of the row leads to the next step.
pub(crate) fn can_lead(
    p: &Program,
    b: BodyId,
    row: &[Arc],
    origin: &Origin,
    step: &PathStep,
    next: &PathStep,
) -> bool
    requires room { HasRoom p.now b }
    requires interests { HasSmallInterests p.now }
    requires small { (i : ℕ) (a : DeclaredArc) → IsAt row.now i a → IsSmallAction p.now a.action }
    requires few { (i : ℕ) (a : DeclaredArc) → IsAt row.now i a → length (arc_births p.now b a) < 2 ^ 32 }
    ensures { result ≡ list_any (can_lead_by p.now b origin.now step.now next.now) row.now }
{
    'each: for arc in row {
        if can_lead_by(p, b, origin, step, next, arc) {
            return true;
        }
    }
    false
}

// Whether the step by some arc of the row breaks the rule of the fault.
pub(crate) fn can_break(
    p: &Program,
    b: BodyId,
    row: &[Arc],
    fault: &FaultAt,
    step: &PathStep,
) -> bool
    requires room { HasRoom p.now b }
    requires interests { HasSmallInterests p.now }
    requires small { (i : ℕ) (a : DeclaredArc) → IsAt row.now i a → IsSmallAction p.now a.action }
    ensures { result ≡ list_any (can_break_by p.now b fault.now step.now) row.now }
{
    'each: for arc in row {
        if can_break_by(p, b, fault, step, arc) {
            return true;
        }
    }
    false
}
