//! Single steps of a path.

ghost use Rattle.std.specs.Prelude.{◌≡◌, ◌<◌, ◌^◌, length};
ghost use Rattle.std.specs.List.{list_any};
ghost use Rattle.must_call_sets.specs.WellFormed.{HasSmallInterests};
ghost use Rattle.obligation_facts.specs.SmallActions.{IsSmallAction};
ghost use Rattle.flow_rules.specs.Births.{births_at_entry};
ghost use Rattle.flow_rules.specs.Room.{HasRoom};
ghost use Rattle.obligation_paths.specs.Origins.{arc_births};
ghost use Rattle.flow_rules.specs.Numbering.{numbered};
ghost use Rattle.fault_paths.specs.Tests.{breaks_with, can_become, can_break_by, can_enter, can_lead_by, is_breach, is_first, is_next, is_step_of};

use fault_order::FaultAt;
use flow_rules::{PathStep, births, entry_births, flow};
use java_cfg::Arc;
use java_control::{Fact, Origin, Outcome};
use program_model::{BodyId, Program};

// Whether a step is told of an arc.
fn is_step_of(step: &PathStep, arc: &Arc) -> bool
    ensures { result ≡ is_step_of step.now arc.now }
{
    step.action == arc.action && step.edge == arc.edge && step.pos == arc.pos
}

// The fact with another number.
fn with_number(fact: Fact, number: u32) -> Fact
    ensures { result ≡ numbered number fact }
{
    Fact {
        origin: number,
        ..fact
    }
}

// Whether a birth is one of the origin, and its fact is this but for the number.
fn is_first(origin: &Origin, fact: &Fact, birth: &(Origin, Fact)) -> bool
    ensures { result ≡ is_first origin.now fact.now birth.now }
{
    birth.0 == *origin && with_number(birth.1, fact.origin) == *fact
}

// Whether the fact may be known at the entry of a body.
fn is_born_at_entry(p: &Program, b: BodyId, origin: &Origin, fact: &Fact) -> bool
    requires room { HasRoom p.now b }
    requires few { length (births_at_entry p.now b) < 2 ^ 32 }
    ensures { result ≡ list_any (is_first origin.now fact.now) (births_at_entry p.now b) }
{
    let mut k: u32 = 0;
    'each: while let Some(birth) = entry_births(p, b, k) {
        if is_first(origin, fact, &birth) {
            return true;
        }
        k += 1;
    }
    false
}

// Whether the step of an arc bears the fact.
fn is_born_by(p: &Program, b: BodyId, arc: &Arc, origin: &Origin, fact: &Fact) -> bool
    requires room { HasRoom p.now b }
    requires small { IsSmallAction p.now arc.now.action }
    requires few { length (arc_births p.now b arc.now) < 2 ^ 32 }
    ensures { result ≡ list_any (is_first origin.now fact.now) (arc_births p.now b arc.now) }
{
    let mut k: u32 = 0;
    'each: while let Some(birth) = births(p, b, arc.action, arc.edge, arc.pos, k) {
        if is_first(origin, fact, &birth) {
            return true;
        }
        k += 1;
    }
    false
}

// Whether the outcome is the fact.
fn is_next(fact: &Fact, outcome: Outcome) -> bool
    ensures { result ≡ is_next fact.now outcome }
{
    match outcome {
        Outcome::Next(next) => next == *fact,
        Outcome::Gone => false,
        Outcome::Fault(_, _) => false,
    }
}

// Whether this may be known at the entry of a body.
pub(crate) fn can_enter(p: &Program, b: BodyId, origin: &Origin, known: Option<Fact>) -> bool
    requires room { HasRoom p.now b }
    requires few { length (births_at_entry p.now b) < 2 ^ 32 }
    ensures { result ≡ can_enter p.now b origin.now known }
{
    match known {
        None => true,
        Some(fact) => is_born_at_entry(p, b, origin, &fact),
    }
}

// Whether the step of an arc may make the one of the other.
fn can_become(
    p: &Program,
    b: BodyId,
    origin: &Origin,
    arc: &Arc,
    before: Option<Fact>,
    after: Option<Fact>,
) -> bool
    requires room { HasRoom p.now b }
    requires interests { HasSmallInterests p.now }
    requires small { IsSmallAction p.now arc.now.action }
    requires few { length (arc_births p.now b arc.now) < 2 ^ 32 }
    ensures { result ≡ can_become p.now b origin.now arc.now before after }
{
    match (before, after) {
        (None, None) => true,
        (None, Some(fact)) => is_born_by(p, b, arc, origin, &fact),
        (Some(_), None) => false,
        (Some(fact), Some(next)) => {
            is_next(&next, flow(p, b, origin, arc.action, arc.edge, &fact))
        }
    }
}

// Whether the step by the arc leads to the next step.
pub(crate) fn can_lead_by(
    p: &Program,
    b: BodyId,
    origin: &Origin,
    step: &PathStep,
    next: &PathStep,
    arc: &Arc,
) -> bool
    requires room { HasRoom p.now b }
    requires interests { HasSmallInterests p.now }
    requires small { IsSmallAction p.now arc.now.action }
    requires few { length (arc_births p.now b arc.now) < 2 ^ 32 }
    ensures { result ≡ can_lead_by p.now b origin.now step.now next.now arc.now }
{
    is_step_of(step, arc)
        && next.node == arc.to
        && can_become(p, b, origin, arc, step.fact, next.fact)
}

// Whether the outcome is the fault, with no other missing names.
fn is_breach(fault: &FaultAt, outcome: Outcome) -> bool
    ensures { result ≡ is_breach fault.now outcome }
{
    match outcome {
        Outcome::Next(_) => false,
        Outcome::Gone => false,
        Outcome::Fault(rule, names) => rule == fault.rule && names.is_subset(fault.missing),
    }
}

// Whether the step of an arc breaks the rule of the fault where this is known.
fn breaks_with(p: &Program, b: BodyId, fault: &FaultAt, arc: &Arc, known: Option<Fact>) -> bool
    requires room { HasRoom p.now b }
    requires interests { HasSmallInterests p.now }
    requires small { IsSmallAction p.now arc.now.action }
    ensures { result ≡ breaks_with p.now b fault.now arc.now known }
{
    match known {
        None => false,
        Some(fact) => is_breach(
            fault,
            flow(p, b, &fault.origin, arc.action, arc.edge, &fact),
        ),
    }
}

// Whether the step by the arc breaks the rule of the fault at its place.
pub(crate) fn can_break_by(
    p: &Program,
    b: BodyId,
    fault: &FaultAt,
    step: &PathStep,
    arc: &Arc,
) -> bool
    requires room { HasRoom p.now b }
    requires interests { HasSmallInterests p.now }
    requires small { IsSmallAction p.now arc.now.action }
    ensures { result ≡ can_break_by p.now b fault.now step.now arc.now }
{
    is_step_of(step, arc) && step.pos == fault.at && breaks_with(p, b, fault, arc, step.fact)
}
