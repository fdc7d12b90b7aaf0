//! The places that hold an object after a step, from those that held it before.

ghost use Rattle.std.specs.Prelude.{◌≡◌, ◌+◌, ◌<◌};
ghost use Rattle.program_model.specs.Lookups.{body_at};
ghost use Rattle.control_actions.specs.PlaceNumbers.{IsSmall};
ghost use Rattle.obligation_facts.specs.SmallActions.{IsSmallAction, IsSmallScope, IsSmallTemp};
ghost use Rattle.alias_sets.specs.PlaceRows.{below, cast, copied, dropped, entered, places_after, raised, settled, stored};

use crate::aliases::called_places;
use control_actions::{Action, Edge, Place, Places, Scope, completion_temp, field_place};
use obligation_facts::{has_temp, without_scope, without_temps};
use program_model::{BodyId, Program};

// The place `to` takes what `from` holds.
fn copied(held: Places, to: Place, from: Place) -> Places
    requires to { IsSmall to }
    requires from { IsSmall from }
    ensures { result ≡ copied held to from }
{
    if held.contains(from) {
        held.with(to)
    } else {
        held.without(to)
    }
}

// The places without the temps from depth `first` on.
fn below(held: Places, first: u32) -> Places
    requires { first < 64 }
    ensures { result ≡ below held first }
{
    without_temps(held, first, 64 - first)
}

// The temp of depth `first` takes the value of a completion's temp, and all other temps from there on are emptied.
fn settled(held: Places, first: u32, value: Option<u32>) -> Places
    requires first { first < 64 }
    requires value { IsSmallTemp value }
    ensures { result ≡ settled held first value }
{
    if has_temp(held, value) {
        below(held, first).with(Place::Temp(first))
    } else {
        below(held, first)
    }
}

// A variable takes the exception in the temp of depth `d`, and all temps from depth `first` on are emptied.
fn entered(held: Places, variable: u32, first: u32, d: u32) -> Places
    requires variable { variable < 160 }
    requires first { first < 64 }
    requires depth { d < 64 }
    ensures { result ≡ entered held variable first d }
{
    below(copied(held, Place::Var(variable), Place::Temp(d)), first)
}

// A store leaves the stored value of the temp behind `d` in that of depth `d`, where it goes on.
fn stored(held: Places, d: u32, edge: Edge) -> Places
    requires { d + 1 < 64 }
    ensures { result ≡ stored held d edge }
{
    let left = held.without(Place::Temp(d)).without(Place::Temp(d + 1));
    match edge {
        Edge::Go => {
            if held.contains(Place::Temp(d + 1)) {
                left.with(Place::Temp(d))
            } else {
                left
            }
        }
        _ => left,
    }
}

// A cast that throws leaves the exception in the temp of depth `d`.
fn cast(held: Places, d: u32, edge: Edge) -> Places
    requires { d < 64 }
    ensures { result ≡ cast held d edge }
{
    match edge {
        Edge::Throws(_) => held.without(Place::Temp(d)),
        _ => held,
    }
}

fn dropped(p: &Program, body: BodyId, scope: Scope, held: Places) -> Places
    requires { IsSmallScope scope }
    ensures { result ≡ dropped (body_at p.now body) scope held }
{
    match p.body(body) {
        None => held,
        Some(found) => without_scope(found, scope, held),
    }
}

// A `throw` of null leaves the exception in the temp of depth `d`.
fn raised(p: &Program, held: Places, d: u32, edge: Edge) -> Places
    requires { d < 64 }
    ensures { result ≡ raised p.now held d edge }
{
    match edge {
        Edge::Throws(class) => {
            if class == p.core.null_pointer_exception {
                held.without(Place::Temp(d))
            } else {
                held
            }
        }
        _ => held,
    }
}

/// The places that hold an object after a step of the body, from those that held it before. It takes no memory.
pub fn place_step(p: &Program, body: BodyId, action: Action, edge: Edge, held: Places) -> Places
    requires { IsSmallAction p.now action }
    ensures { result ≡ places_after p.now body action edge held }
{
    match action {
        Action::Skip => held,
        Action::Copy(to, from) => copied(held, to, from),
        Action::Move(to, from) => copied(held, to, from).without(from),
        Action::Plain(place, _) => held.without(place),
        Action::Drop(scope) => dropped(p, body, scope, held),
        Action::Settle(first, completion) => settled(held, first, completion_temp(completion)),
        Action::Enter(_, variable, first, d) => entered(held, variable, first, d),
        Action::Test(d) => held.without(Place::Temp(d)),
        Action::Op(_, d, n) => without_temps(held, d, n).without(Place::Temp(d)),
        Action::Get(_, d, _) => held.without(Place::Temp(d)),
        Action::Put(_, d, _) => stored(held, d, edge),
        Action::Cast(_, d) => cast(held, d, edge),
        Action::PutOwn(field, d) => copied(held, field_place(p, field), Place::Temp(d)),
        Action::Call(_, d, _, _) => called_places(p, action, d, edge, held),
        Action::New(_, d, _) => called_places(p, action, d, edge, held),
        Action::Super(_, d, _) => called_places(p, action, d, edge, held),
        Action::Raise(d, _) => raised(p, held, d, edge),
        Action::End(_) => held,
    }
}
