//! The methods that were called on an object, after a step (Checker Framework manual, Called Methods Checker).

ghost use Rattle.std.specs.Prelude.{◌≡◌, ◌<◌, IfSome, true};
ghost use Rattle.program_model.specs.declared.kinds.FieldId.{FieldId};
ghost use Rattle.control_actions.specs.PlaceNumbers.{IsSmall};
ghost use Rattle.control_actions.specs.Owned.{place_of_field};
ghost use Rattle.obligation_facts.specs.SmallActions.{IsSmallAction};
ghost use Rattle.obligation_facts.specs.Callees.{callee};
ghost use Rattle.must_call_sets.specs.Bodies.{has_field_place};
ghost use Rattle.must_call_sets.specs.Signatures.{when};
ghost use Rattle.must_call_sets.specs.WellFormed.{HasSmallInterests};
ghost use Rattle.called_methods.specs.CalledRows.{all_names, called_after, called_at_call, called_by, called_on_null, holds_field, holds_receiver, holds_target, interest_in, is_emptied, promised_at, promises_at, with_name};

use control_actions::{Action, Edge, Fact, Place, Places, field_place, is_reset_of_this};
use must_call_sets::has_field_place;
use obligation_facts::{
    callee, has_part, holds_operand, is_held, is_super_target, is_this_target, may_be_null_target,
};
use program_model::{BodyId, FieldId, Program, Promise, Target};
use rlc_base::{NameId, NameSet};

/// Whether the place of an owning field of `this` is among these places, in a body of the class that declares it.
pub(crate) fn holds_field(p: &Program, body: BodyId, held: Places, field: FieldId) -> bool
    requires { has_field_place p.now body field ≡ true → IsSmall (place_of_field p.now field) }
    ensures { result ≡ holds_field p.now body held field }
{
    if has_field_place(p, body, field) {
        held.contains(field_place(p, field))
    } else {
        false
    }
}

// The names, where the test holds, and else none.
pub(crate) fn when(holds: bool, names: NameSet) -> NameSet
    ensures { result ≡ when holds names }
{
    if holds { names } else { NameSet::empty() }
}

// The name by which the call counts.
#[tactic(auto, using(crate::proofs::CallNames::callee_small))]
fn interest_of_call(p: &Program, action: Action) -> Option<NameId>
    requires { HasSmallInterests p.now }
    ensures name { result ≡ interest_in (callee p.now action) }
    ensures small { IfSome result (λ n. n.0 < 128) }
{
    match callee(p, action) {
        None => None,
        Some(method) => method.sig.interest,
    }
}

// Whether the receiver is among these places. In `super.m()` the super class's part of `this` counts as the receiver.
fn holds_receiver(p: &Program, action: Action, held: Places) -> bool
    requires { IsSmallAction p.now action }
    ensures { result ≡ holds_receiver action held }
{
    if is_super_target(action) {
        held.contains(Place::Super)
    } else {
        holds_operand(p, action, held, 0)
    }
}

fn with_name(called: NameSet, name: Option<NameId>) -> NameSet
    requires { IfSome name (λ n. n.0 < 128) }
    ensures { result ≡ with_name called name }
{
    match name {
        None => called,
        Some(n) => called.insert(n),
    }
}

// A call of a method without arguments on the object counts for its name.
fn called_at_call(p: &Program, action: Action, held: Places, called: NameSet) -> NameSet
    requires action { IsSmallAction p.now action }
    requires interests { HasSmallInterests p.now }
    ensures { result ≡ called_at_call p.now action held called }
{
    if holds_receiver(p, action, held) {
        with_name(called, interest_of_call(p, action))
    } else {
        called
    }
}

fn holds_target(p: &Program, body: BodyId, action: Action, held: Places, target: Target) -> bool
    requires action { IsSmallAction p.now action }
    requires fields { (f : FieldId) → has_field_place p.now body f ≡ true → IsSmall (place_of_field p.now f) }
    ensures { result ≡ holds_target p.now body action held target }
{
    match target {
        Target::At(position) => holds_operand(p, action, held, position),
        Target::OfField(field) => {
            if is_this_target(action) {
                holds_field(p, body, held, field)
            } else {
                false
            }
        }
    }
}

// The names that these promises give to the object at these places.
fn promised_at(
    p: &Program,
    body: BodyId,
    action: Action,
    held: Places,
    promises: &[Promise],
) -> NameSet
    requires action { IsSmallAction p.now action }
    requires fields { (f : FieldId) → has_field_place p.now body f ≡ true → IsSmall (place_of_field p.now f) }
    ensures { result ≡ promised_at p.now body action held promises.now }
{
    let mut names = NameSet::empty();
    for promise in promises {
        let holds = holds_target(p, body, action, held, promise.target);
        names = names.union(when(holds, promise.names));
    }
    names
}

// The promises of the called signature that hold at the edge.
fn promises_at(p: &Program, action: Action, edge: Edge) -> &[Promise]
    ensures { result.now ≡ promises_at p.now action edge }
{
    match callee(p, action) {
        None => &[],
        Some(method) => match edge {
            Edge::Go => &method.sig.promises,
            Edge::Throws(_) => {
                if may_be_null_target(p, action, edge) {
                    &[]
                } else {
                    &method.sig.on_throw
                }
            }
            _ => &[],
        },
    }
}

// A reset of `this` empties what is held in its fields.
fn is_emptied(p: &Program, action: Action, held: Places) -> bool
    ensures { result ≡ is_emptied p.now action held }
{
    is_reset_of_this(p, action) && has_part(held)
}

// The methods that were called on the object after a call.
fn called_by(p: &Program, body: BodyId, action: Action, edge: Edge, fact: &Fact) -> NameSet
    requires action { IsSmallAction p.now action }
    requires fields { (f : FieldId) → has_field_place p.now body f ≡ true → IsSmall (place_of_field p.now f) }
    requires interests { HasSmallInterests p.now }
    ensures { result ≡ called_by p.now body action edge fact.now }
{
    if is_emptied(p, action, fact.places) {
        NameSet::empty()
    } else {
        let promised = promised_at(p, body, action, fact.places, promises_at(p, action, edge));
        called_at_call(p, action, fact.places, fact.called).union(promised)
    }
}

// All names of the table.
#[tactic(auto, using(crate::proofs::CallNames::names_next))]
fn all_names(p: &Program) -> NameSet
    ensures { result ≡ all_names p.now }
{
    let mut names = NameSet::empty();
    for number in 0..p.names.len() {
        names = names.insert(NameId(number));
    }
    names
}

// A null value holds no object; for what a field owns, all was called then.
fn called_on_null(p: &Program, d: u32, edge: Edge, fact: &Fact) -> NameSet
    requires { d < 64 }
    ensures { result ≡ called_on_null p.now d edge fact.now }
{
    match edge {
        Edge::Null => {
            if fact.places.contains(Place::Temp(d)) && is_held(fact.mode) {
                all_names(p)
            } else {
                fact.called
            }
        }
        _ => fact.called,
    }
}

/// The methods that were called on the object of a fact, after a step of the body. It takes no memory.
pub fn called_step(p: &Program, body: BodyId, action: Action, edge: Edge, fact: &Fact) -> NameSet
    requires action { IsSmallAction p.now action }
    requires fields { (f : FieldId) → has_field_place p.now body f ≡ true → IsSmall (place_of_field p.now f) }
    requires interests { HasSmallInterests p.now }
    ensures { result ≡ called_after p.now body action edge fact.now }
{
    match action {
        Action::Test(d) => called_on_null(p, d, edge, fact),
        Action::Call(_, _, _, _) => called_by(p, body, action, edge, fact),
        Action::New(_, _, _) => called_by(p, body, action, edge, fact),
        Action::Super(_, _, _) => called_by(p, body, action, edge, fact),
        _ => fact.called,
    }
}
