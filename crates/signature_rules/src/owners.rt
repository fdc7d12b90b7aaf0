//! Which classes stand under one that declares owning fields.

ghost use Rattle.std.specs.List.{flat_map, list_any};
ghost use Rattle.std.specs.Prelude.{◌≡◌, ◌&&◌, not};
ghost use Rattle.program_model.specs.Lookups.{class_at, field_at};
ghost use Rattle.program_model.specs.SuperTests.{is_class};
ghost use Rattle.program_model.specs.Validity.{IsNumbered};
ghost use Rattle.must_call_sets.specs.AliasCases.{is_owning_in};
ghost use Rattle.must_call_sets.specs.Bodies.{fields_in};
ghost use Rattle.must_call_sets.specs.Overridings.{class_ids};
ghost use Rattle.refusal_order.specs.Refusals.{least, verdict_of};
ghost use Rattle.signature_rules.specs.OwnerCases.{declares_owning, owner_cases, owner_cases_in, stands_under_owner};

use program_model::{Class, ClassId, FieldId, Program};
use refusal_order::{lesser_of, verdict_of, where_true};
use rlc_base::{Code, Refusal};

fn is_owning(p: &Program, field: FieldId) -> bool
    ensures { result ≡ is_owning_in (field_at p.now field) }
{
    match p.field(field) {
        None => false,
        Some(found) => found.owning,
    }
}

fn has_owning(p: &Program, fields: &[FieldId]) -> bool
    ensures { result ≡ list_any (λ f. is_owning_in (field_at p.now f)) fields.now }
{
    fields.iter().any(|field| is_owning(p, *field))
}

// Whether the class declares an owning field.
fn declares_owning(p: &Program, class: ClassId) -> bool
    ensures { result ≡ declares_owning p.now class }
{
    match p.class(class) {
        None => false,
        Some(found) => has_owning(p, &found.fields),
    }
}

fn is_other_owner(p: &Program, number: ClassId, above: ClassId) -> bool
    ensures { result ≡ (not (is_class above number) && declares_owning p.now above) }
{
    above != number && declares_owning(p, above)
}

// Whether another class that is above it declares an owning field.
fn stands_under_owner(p: &Program, number: ClassId, class: &Class) -> bool
    ensures { result ≡ stands_under_owner p.now number class.now }
{
    class
        .above
        .iter()
        .any(|above| is_other_owner(p, number, *above))
}

fn class_case(p: &Program, number: ClassId) -> Option<Refusal>
    ensures { result ≡ least (owner_cases_in p.now number (class_at p.now number)) }
{
    match p.class(number) {
        None => None,
        Some(class) => where_true(
            stands_under_owner(p, number, class),
            Code::OwningFieldShape,
            class.pos,
        ),
    }
}

fn refusal_of(p: &Program) -> Option<Refusal>
    requires { IsNumbered p.now }
    ensures { result ≡ least (owner_cases p.now) }
{
    let mut least = None;
    for number in 0..p.classes.len() {
        least = lesser_of(least, class_case(p, ClassId(number as u32)));
    }
    least
}

/// Refuses a program in which a class stands under another one that declares owning fields: what a method promises of such a field is
/// said of the objects of its own class alone. It is refused at the class.
pub fn owner_rule(p: &Program) -> Result<(), Refusal>
    requires { IsNumbered p.now }
    ensures { result ≡ verdict_of (least (owner_cases p.now)) }
{
    verdict_of(refusal_of(p))
}
