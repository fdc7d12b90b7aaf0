//! The store into an owning field of `this`.

ghost use Rattle.std.specs.Prelude.{◌≡◌, ◌<◌};
ghost use Rattle.control_actions.specs.Owned.{place_of_field};
ghost use Rattle.control_actions.specs.PlaceNumbers.{IsSmall};
ghost use Rattle.obligation_facts.specs.SmallActions.{IsSmallAction};
ghost use Rattle.owning_fields.specs.Stores.{field_outcome, has_heavy_type, heavy_stored, is_heavy_store, keeps_other, lacks_reset, may_store, object_stored, overwritten, stored, stored_over, with_field};

use control_actions::{Action, Fact, Mode, Origin, Outcome, Place, Rule, field_place};
use must_call_sets::{
    alias_position, beyond_type, field_type, fits_type, is_alias_constructor, is_constructor,
    is_heavy_as, is_heavy_class, must, must_of_optional, resets_this,
};
use obligation_facts::{is_alias, is_held, is_met, is_origin_at, is_own, leave, missing};
use program_model::{BodyId, FieldId, Program};
use rlc_base::NameSet;

// Whether some method must be called on objects of the field's type.
fn has_heavy_type(p: &Program, field: FieldId) -> bool
    ensures { result ≡ has_heavy_type p.now field }
{
    !must_of_optional(p, field_type(p, field)).is_subset(NameSet::empty())
}

// A store outside a constructor asks for a method that creates the obligation of `this` anew, and for a field whose type
// has an obligation.
fn lacks_reset(p: &Program, b: BodyId, field: FieldId, fact: &Fact) -> bool
    ensures { result ≡ lacks_reset p.now b field fact.now }
{
    fact.places.contains(Place::This)
        && !(is_constructor(p, b) || resets_this(p, b) && has_heavy_type(p, field))
}

// Whether the object has an obligation by its class, or may have one by the field's type.
fn is_heavy_store(p: &Program, origin: &Origin, field: FieldId) -> bool
    ensures { result ≡ is_heavy_store p.now origin.now field }
{
    is_heavy_as(p, origin.class, field_type(p, field))
}

// In an alias constructor only the aliased argument may be stored.
fn keeps_other(p: &Program, b: BodyId, origin: &Origin) -> bool
    ensures { result ≡ keeps_other p.now b origin.now }
{
    is_alias_constructor(p, b) && !is_origin_at(origin.kind, alias_position(p, b))
}

// Whether the frame owns the object, or in an alias constructor it is the aliased argument.
fn may_store(p: &Program, b: BodyId, origin: &Origin, fact: &Fact) -> bool
    ensures { result ≡ may_store p.now b origin.now fact.now }
{
    is_heavy_class(p, origin.class)
        && (is_own(fact.mode) || is_alias_constructor(p, b) && is_alias(fact.mode))
}

// The fact with the field's place as well.
fn with_field(p: &Program, field: FieldId, mode: Mode, fact: &Fact) -> Fact
    requires { IsSmall (place_of_field p.now field) }
    ensures { result ≡ with_field p.now field mode fact.now }
{
    Fact {
        origin: fact.origin,
        places: fact.places.with(field_place(p, field)),
        mode,
        called: fact.called,
        full: fact.full,
    }
}

// An object with an obligation is stored.
fn heavy_stored(p: &Program, b: BodyId, origin: &Origin, field: FieldId, fact: &Fact) -> Outcome
    requires { IsSmall (place_of_field p.now field) }
    ensures { result ≡ heavy_stored p.now b origin.now field fact.now }
{
    if keeps_other(p, b, origin) {
        Outcome::Fault(Rule::AliasKept, must(p, origin.class))
    } else if !may_store(p, b, origin, fact) {
        Outcome::Fault(Rule::NotOwned, must(p, origin.class))
    } else if !fits_type(p, origin.class, field_type(p, field)) {
        Outcome::Fault(
            Rule::Narrow,
            beyond_type(p, origin.class, field_type(p, field)),
        )
    } else {
        Outcome::Next(with_field(p, field, Mode::Held, fact))
    }
}

// The object is stored.
fn object_stored(p: &Program, b: BodyId, origin: &Origin, field: FieldId, fact: &Fact) -> Outcome
    requires { IsSmall (place_of_field p.now field) }
    ensures { result ≡ object_stored p.now b origin.now field fact.now }
{
    if fact.places.contains(field_place(p, field)) {
        Outcome::Next(*fact)
    } else if is_heavy_store(p, origin, field) {
        heavy_stored(p, b, origin, field, fact)
    } else {
        Outcome::Next(with_field(p, field, fact.mode, fact))
    }
}

// Another value is stored over the object that the field holds.
fn overwritten(p: &Program, origin: &Origin, field: FieldId, fact: &Fact) -> Outcome
    requires { IsSmall (place_of_field p.now field) }
    ensures { result ≡ overwritten p.now origin.now field fact.now }
{
    if is_held(fact.mode) && !is_met(origin, fact) {
        Outcome::Fault(Rule::Overwritten, missing(origin, fact))
    } else {
        leave(origin, fact, fact.places.without(field_place(p, field)))
    }
}

fn stored_over(p: &Program, origin: &Origin, field: FieldId, fact: &Fact) -> Outcome
    requires { IsSmall (place_of_field p.now field) }
    ensures { result ≡ stored_over p.now origin.now field fact.now }
{
    if fact.places.contains(field_place(p, field)) {
        overwritten(p, origin, field, fact)
    } else {
        Outcome::Next(*fact)
    }
}

// The store of the temp of this depth into the field.
fn stored(
    p: &Program,
    b: BodyId,
    origin: &Origin,
    field: FieldId,
    depth: u32,
    fact: &Fact,
) -> Outcome
    requires field_room { IsSmall (place_of_field p.now field) }
    requires temp_room { depth < 64 }
    ensures { result ≡ stored p.now b origin.now field depth fact.now }
{
    if lacks_reset(p, b, field, fact) {
        Outcome::Fault(Rule::ResetMissing, must(p, origin.class))
    } else if fact.places.contains(Place::Temp(depth)) {
        object_stored(p, b, origin, field, fact)
    } else {
        stored_over(p, origin, field, fact)
    }
}

/// What a store into an owning field of `this` makes of a fact (Checker Framework manual, Resource Leak Checker, "Owning
/// fields"). Every other action leaves it as it is. The places that the action names have room in a set of places.
pub fn field_step(p: &Program, b: BodyId, origin: &Origin, action: Action, fact: &Fact) -> Outcome
    requires { IsSmallAction p.now action }
    ensures { result ≡ field_outcome p.now b origin.now action fact.now }
{
    match action {
        Action::PutOwn(field, depth) => stored(p, b, origin, field, depth, fact),
        _ => Outcome::Next(*fact),
    }
}
