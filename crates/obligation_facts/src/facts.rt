//! What becomes of a fact where its places change, and what it still owes.

ghost use Rattle.std.specs.Prelude.{◌≡◌, ◌+◌, ◌<◌, ◌≤◌, if◌then◌else◌};
ghost use Rattle.control_actions.specs.Scopes.{drops_variable};
ghost use Rattle.control_actions.specs.declared.place.Place.TheVariants as places;
ghost use Rattle.obligation_facts.specs.Facts.{are_position, has_field, has_part, has_temp, is_alias, is_held, is_lent, is_met, is_nowhere, is_origin_at, is_own, is_this_origin, leave, missing, mode_at, need, owes, position_of, without, without_fields, without_parts, without_scope, without_temps, without_variables};
ghost use Rattle.obligation_facts.specs.SmallActions.{IsSmallScope, IsSmallTemp};

use control_actions::{
    Fact, Mode, Origin, OriginKind, Outcome, Place, Places, Rule, Scope, is_dropped,
};
use program_model::Body;
use rlc_base::NameSet;

/// Whether no place is left.
pub fn is_nowhere(held: Places) -> bool
    ensures { result ≡ is_nowhere held }
{
    held.is_empty()
}

/// Whether the temp of this depth, where there is one, is among these places.
pub fn has_temp(held: Places, depth: Option<u32>) -> bool
    requires { IsSmallTemp depth }
    ensures { result ≡ has_temp held depth }
{
    match depth {
        None => false,
        Some(d) => held.contains(Place::Temp(d)),
    }
}

/// The places without `n` temps from depth `d` on.
#[tactic(auto, using(crate::proofs::FactLaws::temps_next, crate::proofs::FactLaws::temps_start, crate::proofs::FactLaws::temps_end))]
pub fn without_temps(held: Places, d: u32, n: u32) -> Places
    requires { d + n ≤ 64 }
    ensures { result ≡ without_temps held d n }
{
    let mut left = held;
    for depth in d..d + n {
        left = left.without(Place::Temp(depth));
    }
    left
}

// The places without that of a variable, where the scope drops it. What the scope declares is only looked up for a variable that is
// held: few are.
fn without_variable(body: &Body, scope: Scope, held: Places, variable: u32) -> Places
    requires { variable < 160 }
    ensures { result ≡ if drops_variable body.now scope variable then without held (places.Var variable) else held }
{
    let place = Place::Var(variable);
    if !held.contains(place) {
        return held;
    }
    if is_dropped(body, scope, place) {
        held.without(place)
    } else {
        held
    }
}

// The places without those of the variables that a scope drops.
#[tactic(auto, using(crate::proofs::FactLaws::variables_next, crate::proofs::FactLaws::variables_end))]
fn without_variables(body: &Body, scope: Scope, held: Places) -> Places
    ensures { result ≡ without_variables body.now scope held 0 160 }
{
    let mut left = held;
    for variable in 0..160u32 {
        left = without_variable(body, scope, left, variable);
    }
    left
}

/// The places without those that are emptied together (JLS 6.3).
pub fn without_scope(body: &Body, scope: Scope, held: Places) -> Places
    requires { IsSmallScope scope }
    ensures { result ≡ without_scope body.now scope held }
{
    match scope {
        Scope::Declared(_) => without_variables(body, scope, held),
        Scope::Variable(x) => held.without(Place::Var(x)),
        Scope::Temp(d) => held.without(Place::Temp(d)),
        Scope::TempsAbove(d) => without_temps(held, d + 1, 63 - d),
    }
}

/// Whether a place of a field of `this` is among these.
#[tactic(auto, using(crate::proofs::FactLaws::has_next, crate::proofs::FactLaws::has_end))]
pub fn has_field(held: Places) -> bool
    ensures { result ≡ has_field held }
{
    for k in 0..16u32 {
        if held.contains(Place::Field(k)) {
            return true;
        }
    }
    false
}

/// The places without those of fields of `this`.
#[tactic(auto, using(crate::proofs::FactLaws::fields_next, crate::proofs::FactLaws::fields_end))]
pub fn without_fields(held: Places) -> Places
    ensures { result ≡ without_fields held }
{
    let mut left = held;
    for k in 0..16u32 {
        left = left.without(Place::Field(k));
    }
    left
}

/// Whether a place of a field of `this`, or the part of the super class, is among these.
pub fn has_part(held: Places) -> bool
    ensures { result ≡ has_part held }
{
    has_field(held) || held.contains(Place::Super)
}

/// The places without those of fields of `this` and the part of the super class.
pub fn without_parts(held: Places) -> Places
    ensures { result ≡ without_parts held }
{
    without_fields(held).without(Place::Super)
}

/// What must be called on the fact's object: the full set of the origin once its obligation was created anew, and else its
/// first set.
pub fn need(origin: &Origin, fact: &Fact) -> NameSet
    ensures { result ≡ need origin.now fact.now }
{
    if fact.full { origin.full } else { origin.first }
}

/// Whether all that must be called was called.
pub fn is_met(origin: &Origin, fact: &Fact) -> bool
    ensures { result ≡ is_met origin.now fact.now }
{
    need(origin, fact).is_subset(fact.called)
}

/// What must be called and was not.
pub fn missing(origin: &Origin, fact: &Fact) -> NameSet
    ensures { result ≡ missing origin.now fact.now }
{
    need(origin, fact).minus(fact.called)
}

/// Whether the frame owns the object.
pub fn is_own(mode: Mode) -> bool
    ensures { result ≡ is_own mode }
{
    match mode {
        Mode::Own => true,
        Mode::None | Mode::Held | Mode::Lent | Mode::Alias => false,
    }
}

/// Whether an owning field of `this` owns the object.
pub fn is_held(mode: Mode) -> bool
    ensures { result ≡ is_held mode }
{
    match mode {
        Mode::Held => true,
        Mode::Own | Mode::None | Mode::Lent | Mode::Alias => false,
    }
}

/// Whether the caller lent the object, to be reset.
pub fn is_lent(mode: Mode) -> bool
    ensures { result ≡ is_lent mode }
{
    match mode {
        Mode::Lent => true,
        Mode::Own | Mode::None | Mode::Held | Mode::Alias => false,
    }
}

/// Whether the object is an alias whose resource the caller has.
pub fn is_alias(mode: Mode) -> bool
    ensures { result ≡ is_alias mode }
{
    match mode {
        Mode::Alias => true,
        Mode::Own | Mode::None | Mode::Held | Mode::Lent => false,
    }
}

/// Whether the frame owns the object, and its obligation is open.
pub fn owes(origin: &Origin, fact: &Fact) -> bool
    ensures { result ≡ owes origin.now fact.now }
{
    is_own(fact.mode) && !is_met(origin, fact)
}

/// Whether the origin is the parameter or the receiver at the position, where there is one: the receiver is position 0, and
/// the k-th parameter position k.
pub fn is_origin_at(kind: OriginKind, position: Option<u32>) -> bool
    ensures { result ≡ is_origin_at kind position }
{
    match (kind, position) {
        (OriginKind::Param(x), Some(k)) => u64::from(x) + 1 == u64::from(k),
        (OriginKind::ThisRef, Some(k)) => k == 0,
        _ => false,
    }
}

/// Whether the origin is `this`.
pub fn is_this_origin(kind: OriginKind) -> bool
    ensures { result ≡ is_this_origin kind }
{
    is_origin_at(kind, Some(0))
}

// What is held in `this` stays so while `this`, its super class's part or one of its fields holds it.
fn mode_at(mode: Mode, held: Places) -> Mode
    ensures { result ≡ mode_at mode held }
{
    match mode {
        Mode::Held => {
            if held.contains(Place::This) || has_part(held) {
                Mode::Held
            } else {
                Mode::None
            }
        }
        Mode::Own | Mode::None | Mode::Lent | Mode::Alias => mode,
    }
}

/// What becomes of a fact whose object is held at these places from now on. Where there is none, the fact is gone, or an
/// open obligation of the frame is lost.
pub fn leave(origin: &Origin, fact: &Fact, held: Places) -> Outcome
    ensures { result ≡ leave origin.now fact.now held }
{
    if is_nowhere(held) {
        if owes(origin, fact) {
            Outcome::Fault(Rule::Lost, missing(origin, fact))
        } else {
            Outcome::Gone
        }
    } else {
        Outcome::Next(Fact {
            origin: fact.origin,
            places: held,
            mode: mode_at(fact.mode, held),
            called: fact.called,
            full: fact.full,
        })
    }
}
