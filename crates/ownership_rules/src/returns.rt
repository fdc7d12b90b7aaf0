//! What a `return` makes of the obligation of the returned object.

ghost use Rattle.std.specs.Prelude.{◌≡◌, ◌<◌};
ghost use Rattle.obligation_facts.specs.SmallActions.{IsSmallAction};
ghost use Rattle.must_call_sets.specs.Bodies.{method_of};
ghost use Rattle.ownership_rules.specs.MovesAtReturns.{heavy_result, kept_alias, moved_at_return, moved_by, owned_result, owning_result_in, result_type, returned};

use crate::calls::is_owned;
use crate::moved::Moved;
use control_actions::{Action, Completion, Fact, Origin, Place, Rule};
use must_call_sets::{alias_position, fits_type, is_heavy_as, method_of};
use obligation_facts::is_alias;
use program_model::{BodyId, Program, VType};

/// The declared type of a body's result; none for `void`, a constructor and a number of no body.
pub fn result_type(p: &Program, b: BodyId) -> Option<VType>
    ensures { result ≡ result_type p.now b }
{
    match method_of(p, b) {
        None => None,
        Some(method) => method.sig.result,
    }
}

fn has_owning_result(p: &Program, b: BodyId) -> bool
    ensures { result ≡ owning_result_in (method_of p.now b) }
{
    match method_of(p, b) {
        None => false,
        Some(method) => method.sig.owning_result,
    }
}

// An alias method returns what is an alias of its argument's resource.
fn kept_alias(fact: &Fact) -> Moved
    ensures { result ≡ kept_alias fact.now }
{
    if is_alias(fact.mode) {
        Moved::Moves
    } else {
        Moved::Bad(Rule::AliasKept)
    }
}

// An owning result is owned, and fits the result's type.
fn owned_result(p: &Program, b: BodyId, origin: &Origin, fact: &Fact) -> Moved
    ensures { result ≡ owned_result p.now b origin.now fact.now }
{
    if !is_owned(p, origin, fact) {
        Moved::Bad(Rule::NotOwned)
    } else if !fits_type(p, origin.class, result_type(p, b)) {
        Moved::Bad(Rule::Narrow)
    } else {
        Moved::Moves
    }
}

// The result has an obligation.
fn heavy_result(p: &Program, b: BodyId, origin: &Origin, fact: &Fact) -> Moved
    ensures { result ≡ heavy_result p.now b origin.now fact.now }
{
    if alias_position(p, b).is_some() {
        kept_alias(fact)
    } else if has_owning_result(p, b) {
        owned_result(p, b, origin, fact)
    } else {
        Moved::Stays
    }
}

// The temp of this depth is returned.
fn returned(p: &Program, b: BodyId, origin: &Origin, depth: u32, fact: &Fact) -> Moved
    requires { depth < 64 }
    ensures { result ≡ returned p.now b origin.now depth fact.now }
{
    if fact.places.contains(Place::Temp(depth)) && is_heavy_as(p, origin.class, result_type(p, b)) {
        heavy_result(p, b, origin, fact)
    } else {
        Moved::Stays
    }
}

/// What the end of a body makes of the obligation of its result (Checker Framework manual, Resource Leak Checker,
/// "Ownership"). Every other action, and every other end, moves nothing. The places that the action names have room in a
/// set of places.
pub fn move_at_return(p: &Program, b: BodyId, origin: &Origin, action: Action, fact: &Fact) -> Moved
    requires { IsSmallAction p.now action }
    ensures { result ≡ moved_at_return p.now b origin.now action fact.now }
{
    match action {
        Action::End(Completion::ReturnValue(depth, _)) => returned(p, b, origin, depth, fact),
        _ => Moved::Stays,
    }
}
