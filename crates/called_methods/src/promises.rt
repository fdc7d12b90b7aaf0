//! What a body's method promises to have called when it ends (`@EnsuresCalledMethods`,
//! `@EnsuresCalledMethodsOnException`).

ghost use Rattle.std.specs.Prelude.{◌≡◌, true};
ghost use Rattle.program_model.specs.declared.kinds.FieldId.{FieldId};
ghost use Rattle.control_actions.specs.PlaceNumbers.{IsSmall};
ghost use Rattle.control_actions.specs.Owned.{place_of_field};
ghost use Rattle.must_call_sets.specs.Bodies.{has_field_place, method_of, promises_in, throwing_promises_in};
ghost use Rattle.called_methods.specs.Promises.{broken_promise, is_of_held_field, is_of_origin, promised_at_end, promised_by_end, promised_by_throw, promised_on_both, promised_on_fields, promised_on_position};

use crate::called_rows::{holds_field, when};
use crate::preconditions::some_names;
use control_actions::{Action, Completion, Fact, Origin, OriginKind, Places};
use must_call_sets::{is_finalizer, method_of};
use obligation_facts::is_origin_at;
use program_model::{BodyId, Program, Promise, Target};
use rlc_base::NameSet;

fn is_of_origin(kind: OriginKind, target: Target) -> bool
    ensures { result ≡ is_of_origin kind target }
{
    match target {
        Target::At(position) => is_origin_at(kind, Some(position)),
        Target::OfField(_) => false,
    }
}

fn is_of_held_field(p: &Program, body: BodyId, held: Places, target: Target) -> bool
    requires { (f : FieldId) → has_field_place p.now body f ≡ true → IsSmall (place_of_field p.now f) }
    ensures { result ≡ is_of_held_field p.now body held target }
{
    match target {
        Target::At(_) => false,
        Target::OfField(field) => holds_field(p, body, held, field),
    }
}

fn promised_on_position(kind: OriginKind, promises: &[Promise]) -> NameSet
    ensures { result ≡ promised_on_position kind promises.now }
{
    let mut names = NameSet::empty();
    for promise in promises {
        names = names.union(when(is_of_origin(kind, promise.target), promise.names));
    }
    names
}

fn promised_on_fields(p: &Program, body: BodyId, held: Places, promises: &[Promise]) -> NameSet
    requires { (f : FieldId) → has_field_place p.now body f ≡ true → IsSmall (place_of_field p.now f) }
    ensures { result ≡ promised_on_fields p.now body held promises.now }
{
    let mut names = NameSet::empty();
    for promise in promises {
        let holds = is_of_held_field(p, body, held, promise.target);
        names = names.union(when(holds, promise.names));
    }
    names
}

fn promised_on_both(
    p: &Program,
    body: BodyId,
    kind: OriginKind,
    held: Places,
    promises: &[Promise],
) -> NameSet
    requires { (f : FieldId) → has_field_place p.now body f ≡ true → IsSmall (place_of_field p.now f) }
    ensures { result ≡ promised_on_both p.now body kind held promises.now }
{
    promised_on_position(kind, promises).union(promised_on_fields(p, body, held, promises))
}

// What the body's method promises for an end that is no exception.
fn promises_of(p: &Program, body: BodyId) -> &[Promise]
    ensures { result.now ≡ promises_in (method_of p.now body) }
{
    match method_of(p, body) {
        None => &[],
        Some(method) => &method.sig.promises,
    }
}

// What it promises for an end by an exception.
fn throwing_promises_of(p: &Program, body: BodyId) -> &[Promise]
    ensures { result.now ≡ throwing_promises_in (method_of p.now body) }
{
    match method_of(p, body) {
        None => &[],
        Some(method) => &method.sig.on_throw,
    }
}

fn promised_by_throw(p: &Program, body: BodyId, kind: OriginKind, held: Places) -> NameSet
    requires { (f : FieldId) → has_field_place p.now body f ≡ true → IsSmall (place_of_field p.now f) }
    ensures { result ≡ promised_by_throw p.now body kind held }
{
    let on_throw = promised_on_both(p, body, kind, held, throwing_promises_of(p, body));
    let finalized = promised_on_fields(p, body, held, promises_of(p, body));
    on_throw.union(when(is_finalizer(p, body), finalized))
}

fn promised_by_end(
    p: &Program,
    body: BodyId,
    kind: OriginKind,
    held: Places,
    completion: Completion,
) -> NameSet
    requires { (f : FieldId) → has_field_place p.now body f ≡ true → IsSmall (place_of_field p.now f) }
    ensures { result ≡ promised_by_end p.now body kind held completion }
{
    match completion {
        Completion::Throw(_, _, _) => promised_by_throw(p, body, kind, held),
        _ => promised_on_both(p, body, kind, held, promises_of(p, body)),
    }
}

fn promised_at_end(
    p: &Program,
    body: BodyId,
    kind: OriginKind,
    held: Places,
    action: Action,
) -> NameSet
    requires { (f : FieldId) → has_field_place p.now body f ≡ true → IsSmall (place_of_field p.now f) }
    ensures { result ≡ promised_at_end p.now body kind held action }
{
    match action {
        Action::End(completion) => promised_by_end(p, body, kind, held, completion),
        _ => NameSet::empty(),
    }
}

/// The names that the body's method promised to have called on the fact's object, and that were not when the body ends;
/// none where nothing is missing, and for an action that ends no body. It takes no memory.
pub fn ensures_at(
    p: &Program,
    body: BodyId,
    origin: &Origin,
    action: Action,
    fact: &Fact,
) -> Option<NameSet>
    requires { (f : FieldId) → has_field_place p.now body f ≡ true → IsSmall (place_of_field p.now f) }
    ensures { result ≡ broken_promise p.now body origin.now action fact.now }
{
    let promised = promised_at_end(p, body, origin.kind, fact.places, action);
    some_names(promised.minus(fact.called))
}
