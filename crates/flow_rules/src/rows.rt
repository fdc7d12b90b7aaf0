//! The flow rules: what a step makes of a fact.

ghost use Rattle.std.specs.Prelude.{◌≡◌, ◌<◌};
ghost use Rattle.must_call_sets.specs.WellFormed.{HasSmallInterests};
ghost use Rattle.flow_rules.specs.Flow.{cast, flow, null_tested, placed, raised, tested, turn, turned};
ghost use Rattle.obligation_facts.specs.SmallActions.{IsSmallAction};
ghost use Rattle.java_control.specs.Sources.{is_null_pointer, is_throws};
ghost use Rattle.ownership_rules.specs.Room.{HasRoom};

use crate::calls::{called, with_called};
use crate::ends::ended;
use crate::turn::Turn;
use alias_sets::place_step;
use called_methods::called_step;
use java_control::{Action, Edge, Fact, Origin, Outcome, Place, Places};
use obligation_facts::{is_held, leave};
use owning_fields::field_step;
use program_model::{BodyId, Program};

fn turned(outcome: Outcome) -> Turn
    ensures { result ≡ turned outcome }
{
    match outcome {
        Outcome::Next(fact) => Turn::Leaves(fact),
        Outcome::Gone => Turn::Decided(Outcome::Gone),
        Outcome::Fault(rule, names) => Turn::Decided(Outcome::Fault(rule, names)),
    }
}

// A null value holds no object: only what a field owns is still known, and for null all was called.
fn null_tested(p: &Program, b: BodyId, depth: u32, fact: &Fact) -> Turn
    requires small { depth < 64 }
    requires room { HasRoom p.now b }
    requires interests { HasSmallInterests p.now }
    ensures { result ≡ null_tested p.now b depth fact.now }
{
    if !fact.places.contains(Place::Temp(depth)) {
        Turn::Unchanged
    } else if is_held(fact.mode) {
        let called = called_step(p, b, Action::Test(depth), Edge::Null, fact);
        Turn::Leaves(with_called(fact, called))
    } else {
        Turn::Decided(Outcome::Gone)
    }
}

fn tested(p: &Program, b: BodyId, depth: u32, edge: Edge, fact: &Fact) -> Turn
    requires small { depth < 64 }
    requires room { HasRoom p.now b }
    requires interests { HasSmallInterests p.now }
    ensures { result ≡ tested p.now b depth edge fact.now }
{
    match edge {
        Edge::Null => null_tested(p, b, depth, fact),
        _ => Turn::Leaves(*fact),
    }
}

// A cast that throws leaves the exception in its temp.
fn cast(edge: Edge, fact: &Fact) -> Turn
    ensures { result ≡ cast edge fact.now }
{
    match edge {
        Edge::Throws(_) => Turn::Leaves(*fact),
        _ => Turn::Unchanged,
    }
}

// A `throw` of null leaves the exception in its temp.
fn raised(p: &Program, edge: Edge, fact: &Fact) -> Turn
    ensures { result ≡ raised p.now edge fact.now }
{
    match edge {
        Edge::Throws(thrown) => {
            if thrown == p.core.null_pointer_exception {
                Turn::Leaves(*fact)
            } else {
                Turn::Unchanged
            }
        }
        _ => Turn::Unchanged,
    }
}

// The rows of the actions.
fn turn(p: &Program, b: BodyId, origin: &Origin, action: Action, edge: Edge, fact: &Fact) -> Turn
    requires small { IsSmallAction p.now action }
    requires room { HasRoom p.now b }
    requires interests { HasSmallInterests p.now }
    ensures { result ≡ turn p.now b origin.now action edge fact.now }
{
    match action {
        Action::Skip => Turn::Unchanged,
        Action::Copy(_, _) => Turn::Leaves(*fact),
        Action::Move(_, _) => Turn::Leaves(*fact),
        Action::Plain(_, _) => Turn::Leaves(*fact),
        Action::Drop(_) => Turn::Leaves(*fact),
        Action::Settle(_, _) => Turn::Leaves(*fact),
        Action::Enter(_, _, _, _) => Turn::Leaves(*fact),
        Action::Test(depth) => tested(p, b, depth, edge, fact),
        Action::Op(_, _, _) => Turn::Leaves(*fact),
        Action::Get(_, _, _) => Turn::Leaves(*fact),
        Action::Put(_, _, _) => Turn::Leaves(*fact),
        Action::Cast(_, _) => cast(edge, fact),
        Action::PutOwn(_, _) => Turn::Decided(field_step(p, b, origin, action, fact)),
        Action::Call(_, _, _, _) => turned(called(p, b, origin, action, edge, fact)),
        Action::New(_, _, _) => turned(called(p, b, origin, action, edge, fact)),
        Action::Super(_, _, _) => turned(called(p, b, origin, action, edge, fact)),
        Action::Raise(_, _) => raised(p, edge, fact),
        Action::End(completion) => Turn::Decided(ended(p, b, origin, completion, fact)),
    }
}

// The places that hold the object from now on.
fn placed(origin: &Origin, fact: &Fact, held: Places, turn: Turn) -> Outcome
    ensures { result ≡ placed origin.now fact.now held turn }
{
    match turn {
        Turn::Unchanged => Outcome::Next(*fact),
        Turn::Leaves(turned) => leave(origin, &turned, held),
        Turn::Decided(outcome) => outcome,
    }
}

/// What a step makes of a fact of this origin: what the fact is from now on, that it is gone, or the rule that is broken
/// (Checker Framework manual, Resource Leak Checker). Sets of places have room for the places that the action names and for
/// the owning fields of the body's class, and sets of names for the names of methods without parameters.
pub fn flow(
    p: &Program,
    b: BodyId,
    origin: &Origin,
    action: Action,
    edge: Edge,
    fact: &Fact,
) -> Outcome
    requires small { IsSmallAction p.now action }
    requires room { HasRoom p.now b }
    requires interests { HasSmallInterests p.now }
    ensures { result ≡ flow p.now b origin.now action edge fact.now }
{
    let held = place_step(p, b, action, edge, fact.places);
    placed(origin, fact, held, turn(p, b, origin, action, edge, fact))
}
