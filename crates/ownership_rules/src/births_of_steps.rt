//! The births of a step.

ghost use Rattle.std.specs.Prelude.{◌≡◌, ◌<◌, slice_get};
ghost use Rattle.control_actions.specs.PlaceNumbers.{IsSmall};
ghost use Rattle.obligation_facts.specs.SmallActions.{IsSmallAction};
ghost use Rattle.program_model.specs.Lookups.{method_at};
ghost use Rattle.ownership_rules.specs.Births.{birth_on, birth_on_go, births_of_step, constant_birth, new_birth, read_birth, reset_births, result_birth, result_fact};
ghost use Rattle.ownership_rules.specs.MovesAtReturns.{result_in};
ghost use Rattle.ownership_rules.specs.Picks.{pick, then_in};
ghost use Rattle.ownership_rules.specs.Room.{HasRoom};

use crate::field_births::pick_field;
use crate::origins::{born, fact_at};
use crate::picks::{Pick, found, pick_one};
use control_actions::{
    Action, Edge, Fact, Mode, Origin, OriginKind, Place, PlainValue, is_reset_of_this,
};
use must_call_sets::{field_type, is_heavy_class};
use program_model::{BodyId, MethodId, Program, VType};
use rlc_base::{NameSet, Pos};

// A new object with an obligation that is no alias.
fn new_birth(p: &Program, depth: u32, pos: Pos, constructor: MethodId) -> Option<(Origin, Fact)>
    requires { depth < 64 }
    ensures { result ≡ new_birth p.now depth pos (method_at p.now constructor) }
{
    match p.method(constructor) {
        None => None,
        Some(method) => {
            if is_heavy_class(p, method.class) && !method.sig.alias.is_some() {
                born(
                    p,
                    OriginKind::New,
                    pos,
                    Some(VType::Obj(method.class)),
                    method.sig.first,
                    fact_at(Place::Temp(depth), Mode::Own, NameSet::empty(), false),
                )
            } else {
                None
            }
        }
    }
}

// The first fact of a call's result: owned, or full and not owned.
fn result_fact(depth: u32, owned: bool) -> Fact
    requires { depth < 64 }
    ensures { result ≡ result_fact depth owned }
{
    if owned {
        fact_at(Place::Temp(depth), Mode::Own, NameSet::empty(), false)
    } else {
        fact_at(Place::Temp(depth), Mode::None, NameSet::empty(), true)
    }
}

// The result of a call that gives no alias.
fn result_birth(p: &Program, depth: u32, pos: Pos, called: MethodId) -> Option<(Origin, Fact)>
    requires { depth < 64 }
    ensures { result ≡ result_birth p.now depth pos (method_at p.now called) }
{
    match p.method(called) {
        None => None,
        Some(method) => {
            if method.sig.alias.is_some() {
                None
            } else {
                born(
                    p,
                    OriginKind::Result,
                    pos,
                    method.sig.result,
                    method.sig.first,
                    result_fact(depth, method.sig.owning_result),
                )
            }
        }
    }
}

// What is read is not owned by the frame that reads it.
fn read_birth(p: &Program, place: Place, pos: Pos, vtype: Option<VType>) -> Option<(Origin, Fact)>
    requires { IsSmall place }
    ensures { result ≡ read_birth p.now place pos vtype }
{
    born(
        p,
        OriginKind::Read,
        pos,
        vtype,
        None,
        fact_at(place, Mode::None, NameSet::empty(), true),
    )
}

fn constant_type(p: &Program, constant: MethodId) -> Option<VType>
    ensures { result ≡ result_in (method_at p.now constant) }
{
    match p.method(constant) {
        None => None,
        Some(method) => method.sig.result,
    }
}

// The static field of a stub that is read.
fn constant_birth(p: &Program, place: Place, pos: Pos, value: PlainValue) -> Option<(Origin, Fact)>
    requires { IsSmall place }
    ensures { result ≡ constant_birth p.now place pos value }
{
    match value {
        PlainValue::LibraryConstant(constant) => {
            read_birth(p, place, pos, constant_type(p, constant))
        }
        _ => None,
    }
}

// The value that a step gives as it goes on.
fn birth_on_go(p: &Program, action: Action, pos: Pos) -> Option<(Origin, Fact)>
    requires { IsSmallAction p.now action }
    ensures { result ≡ birth_on_go p.now action pos }
{
    match action {
        Action::New(constructor, depth, _) => new_birth(p, depth, pos, constructor),
        Action::Call(called, depth, _, _) => result_birth(p, depth, pos, called),
        Action::Get(f, depth, _) => read_birth(p, Place::Temp(depth), pos, field_type(p, f)),
        Action::Plain(place, value) => constant_birth(p, place, pos, value),
        _ => None,
    }
}

fn birth_on(p: &Program, action: Action, edge: Edge, pos: Pos) -> Option<(Origin, Fact)>
    requires { IsSmallAction p.now action }
    ensures { result ≡ birth_on p.now action edge pos }
{
    match edge {
        Edge::Go => birth_on_go(p, action, pos),
        _ => None,
    }
}

// The k-th birth of a call that creates the obligation of `this` anew: its owning fields, however the call ends.
fn pick_reset(p: &Program, b: BodyId, action: Action, pos: Pos, k: u32) -> Pick
    requires { HasRoom p.now b }
    ensures { result ≡ pick (reset_births p.now b action pos) k }
{
    if is_reset_of_this(p, action) {
        pick_field(p, b, Some(pos), k)
    } else {
        Pick::Past(k)
    }
}

#[tactic(auto, using(crate::proofs::PickLaws::pick_laws))]
fn pick_of_step(p: &Program, b: BodyId, action: Action, edge: Edge, pos: Pos, k: u32) -> Pick
    requires room { HasRoom p.now b }
    requires small { IsSmallAction p.now action }
    ensures { result ≡ pick (births_of_step p.now b action edge pos) k }
{
    match pick_one(birth_on(p, action, edge, pos), k) {
        Pick::Found(birth) => Pick::Found(birth),
        Pick::Past(rest) => pick_reset(p, b, action, pos, rest),
    }
}

/// The k-th birth of a step at this place, k from 0: the value that it gives, and the owning fields of `this` where it
/// creates the obligation of `this` anew. None where there are no more. The origins of the facts are not numbered yet, and
/// 0. The places that the action names, the body's variables and the owning fields of its class have room in a set of
/// places.
#[tactic(auto, using(crate::proofs::PickLaws::pick_laws))]
pub fn births(
    p: &Program,
    b: BodyId,
    action: Action,
    edge: Edge,
    pos: Pos,
    k: u32,
) -> Option<(Origin, Fact)>
    requires room { HasRoom p.now b }
    requires small { IsSmallAction p.now action }
    ensures { result ≡ slice_get (births_of_step p.now b action edge pos) k }
{
    found(pick_of_step(p, b, action, edge, pos, k))
}
