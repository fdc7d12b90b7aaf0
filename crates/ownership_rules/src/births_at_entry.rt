//! The births at a body's entry.

ghost use Rattle.std.specs.Prelude.{◌≡◌, ◌+◌, ◌<◌, ◌≤◌, length, slice_get};
ghost use Rattle.program_model.specs.Lookups.{optional, variable_at};
ghost use Rattle.ownership_rules.specs.Births.{births_at_entry, entry_births_with, has_this, held_births, method_mode, parameter_birth, parameter_births, parameter_mode, this_birth, this_mode};
ghost use Rattle.ownership_rules.specs.Picks.{pick, then_in};
ghost use Rattle.ownership_rules.specs.Room.{HasRoom};

use crate::field_births::pick_field;
use crate::origins::{born, fact_at};
use crate::picks::{Pick, found, pick_one};
use control_actions::{Fact, Mode, Origin, OriginKind, Place};
use must_call_sets::is_position;
use program_model::{Body, BodyId, Method, MethodKind, ParamSig, Program, Sig, VType};
use rlc_base::NameSet;

// Own where it is owning, Alias at the alias position, Lent where the method creates its obligation anew.
fn parameter_mode(sig: &Sig, position: u32, parameter: &ParamSig) -> Mode
    ensures { result ≡ parameter_mode sig.now position parameter.now }
{
    if parameter.owning {
        Mode::Own
    } else if is_position(sig.alias, position) {
        Mode::Alias
    } else if is_position(sig.reset, position) {
        Mode::Lent
    } else {
        Mode::None
    }
}

// The birth of a parameter, in the variable of its index.
fn variable_birth(
    p: &Program,
    body: &Body,
    sig: &Sig,
    index: u32,
    parameter: &ParamSig,
) -> Option<(Origin, Fact)>
    requires { index < 160 }
    ensures { result ≡ parameter_birth p.now sig.now index parameter.now (variable_at body.now index) }
{
    match body.variable(index) {
        None => None,
        Some(variable) => born(
            p,
            OriginKind::Param(index),
            variable.pos,
            Some(parameter.vtype),
            None,
            fact_at(
                Place::Var(index),
                parameter_mode(sig, index + 1, parameter),
                parameter.before,
                true,
            ),
        ),
    }
}

#[tactic(auto, using(crate::proofs::EntryLaws::past_variables))]
fn parameter_birth(
    p: &Program,
    body: &Body,
    sig: &Sig,
    index: usize,
    parameter: &ParamSig,
) -> Option<(Origin, Fact)>
    requires { length body.now.vars.items ≤ 160 }
    ensures { result ≡ parameter_birth p.now sig.now index parameter.now (variable_at body.now index) }
{
    if index < 160 {
        variable_birth(p, body, sig, index as u32, parameter)
    } else {
        None
    }
}

// The k-th birth of the parameters.
#[tactic(auto, using(crate::proofs::PickLaws::pick_laws))]
fn pick_parameter(p: &Program, body: &Body, sig: &Sig, k: u32) -> Pick
    requires { length body.now.vars.items ≤ 160 }
    ensures { result ≡ pick (parameter_births p.now body.now sig.now 0 sig.now.params.items) k }
{
    let mut left = k;
    for (index, parameter) in sig.params.iter().enumerate() {
        match pick_one(parameter_birth(p, body, sig, index, parameter), left) {
            Pick::Found(birth) => return Pick::Found(birth),
            Pick::Past(rest) => left = rest,
        }
    }
    Pick::Past(left)
}

// Lent in a constructor and where the method creates the obligation of `this` anew, Alias at the alias position.
fn method_mode(sig: &Sig) -> Mode
    ensures { result ≡ method_mode sig.now }
{
    if is_position(sig.reset, 0) {
        Mode::Lent
    } else if is_position(sig.alias, 0) {
        Mode::Alias
    } else {
        Mode::None
    }
}

fn this_mode(sig: &Sig, kind: MethodKind) -> Mode
    ensures { result ≡ this_mode sig.now kind }
{
    match kind {
        MethodKind::Ctor => Mode::Lent,
        _ => method_mode(sig),
    }
}

fn has_this(kind: MethodKind) -> bool
    ensures { result ≡ has_this kind }
{
    match kind {
        MethodKind::Instance => true,
        MethodKind::Ctor => true,
        MethodKind::Static => false,
        MethodKind::Constant => false,
    }
}

// The birth of `this`, which a static method has not.
fn this_birth(p: &Program, method: &Method) -> Option<(Origin, Fact)>
    ensures { result ≡ this_birth p.now method.now }
{
    if has_this(method.kind) {
        born(
            p,
            OriginKind::ThisRef,
            method.pos,
            Some(VType::Obj(method.class)),
            None,
            fact_at(
                Place::This,
                this_mode(&method.sig, method.kind),
                NameSet::empty(),
                true,
            ),
        )
    } else {
        None
    }
}

// The k-th birth of what fields hold as the body begins. A constructor begins with nothing in its fields.
fn pick_held(p: &Program, b: BodyId, kind: MethodKind, k: u32) -> Pick
    requires { HasRoom p.now b }
    ensures { result ≡ pick (held_births p.now b kind) k }
{
    match kind {
        MethodKind::Instance => pick_field(p, b, None, k),
        _ => Pick::Past(k),
    }
}

// The k-th birth of `this` and of what fields hold.
fn pick_this_or_held(p: &Program, b: BodyId, method: &Method, k: u32) -> Pick
    requires { HasRoom p.now b }
    ensures { result ≡ then_in (held_births p.now b method.now.kind) (pick (optional (this_birth p.now method.now)) k) }
{
    match pick_one(this_birth(p, method), k) {
        Pick::Found(birth) => Pick::Found(birth),
        Pick::Past(rest) => pick_held(p, b, method.kind, rest),
    }
}

// The k-th of all births at the entry of the method's body.
#[tactic(auto, using(crate::proofs::PickLaws::pick_laws))]
fn pick_at_entry(p: &Program, b: BodyId, body: &Body, method: &Method, k: u32) -> Pick
    requires room { HasRoom p.now b }
    requires variables { length body.now.vars.items ≤ 160 }
    ensures { result ≡ pick (entry_births_with p.now b body.now method.now) k }
{
    match pick_parameter(p, body, &method.sig, k) {
        Pick::Found(birth) => Pick::Found(birth),
        Pick::Past(rest) => pick_this_or_held(p, b, method, rest),
    }
}

/// The k-th birth at a body's entry, k from 0: parameters, `this`, and the owning fields of an instance method's class. None
/// where there are no more. The origins of the facts are not numbered yet, and 0. Sets of places have room for the body's
/// variables and the owning fields of its class.
#[tactic(auto, using(crate::proofs::PickLaws::pick_laws))]
pub fn entry_births(p: &Program, b: BodyId, k: u32) -> Option<(Origin, Fact)>
    requires { HasRoom p.now b }
    ensures { result ≡ slice_get (births_at_entry p.now b) k }
{
    match p.body(b) {
        None => None,
        Some(body) => match p.method(body.method) {
            None => None,
            Some(method) => found(pick_at_entry(p, b, body, method, k)),
        },
    }
}
