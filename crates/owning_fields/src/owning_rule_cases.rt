//! Which owning fields are refused.

ghost use Rattle.std.specs.Prelude.{◌≡◌};
ghost use Rattle.program_model.specs.Lookups.{field_at};
ghost use Rattle.program_model.specs.Validity.{IsNumbered};
ghost use Rattle.must_call_sets.specs.OwningCases.{has_no_finalizer, is_class_type, is_misshapen, owning_cases, owning_cases_in, owning_cases_of, resets_some_alias};
ghost use Rattle.refusal_order.specs.Refusals.{least, verdict_of};

use crate::assigned::is_assigned_from_outside;
use crate::finalized::finalized;
use crate::unseen_resets::{may_hold_unseen_reset, resets_some_alias};
use must_call_sets::{is_extended, must_of_type};
use program_model::{Field, FieldId, Program, VType};
use refusal_order::{lesser_of, verdict_of, where_true};
use rlc_base::{Code, Refusal};

// Whether some name of the field's type has no must-call method that promises it.
fn has_no_finalizer(p: &Program, f: FieldId, field: &Field) -> bool
    ensures { result ≡ has_no_finalizer p.now f field.now }
{
    !must_of_type(p, field.vtype).is_subset(finalized(p, field.class, f))
}

// A class or interface type, `String` among them.
fn is_class_type(vtype: VType) -> bool
    ensures { result ≡ is_class_type vtype }
{
    match vtype {
        VType::Obj(_) => true,
        VType::Str => true,
        _ => false,
    }
}

fn is_misshapen(p: &Program, f: FieldId, field: &Field, renewed: bool) -> bool
    requires { renewed ≡ resets_some_alias p.now }
    ensures { result ≡ is_misshapen p.now f field.now }
{
    field.is_static
        || !field.is_private
        || !is_class_type(field.vtype)
        || is_assigned_from_outside(p, f, field)
        || is_extended(p, field.class)
        || may_hold_unseen_reset(p, field.vtype, renewed)
}

#[tactic(auto, using(crate::proofs::OwningLaws::case_laws))]
fn refusal_of(p: &Program, f: FieldId, field: &Field, renewed: bool) -> Option<Refusal>
    requires { renewed ≡ resets_some_alias p.now }
    ensures { result ≡ least (owning_cases_of p.now f field.now) }
{
    let unfinalized = where_true(has_no_finalizer(p, f, field), Code::NoFinalizer, field.pos);
    let misshapen = where_true(
        is_misshapen(p, f, field, renewed),
        Code::OwningFieldShape,
        field.pos,
    );
    lesser_of(unfinalized, misshapen)
}

fn refusal_at(p: &Program, f: FieldId, renewed: bool) -> Option<Refusal>
    requires { renewed ≡ resets_some_alias p.now }
    ensures { result ≡ least (owning_cases_in p.now f (field_at p.now f)) }
{
    match p.field(f) {
        None => None,
        Some(field) => {
            if field.owning {
                refusal_of(p, f, field, renewed)
            } else {
                None
            }
        }
    }
}

fn least_refusal(p: &Program) -> Option<Refusal>
    requires { IsNumbered p.now }
    ensures { result ≡ least (owning_cases p.now) }
{
    let renewed = resets_some_alias(p);
    let mut found = None;
    let count = p.fields.len();
    for f in 0..count {
        found = lesser_of(found, refusal_at(p, FieldId(f as u32), renewed));
    }
    found
}

/// Refuses an owning field that no must-call method of its class finalizes, and one that is static, not private, not of a
/// class type, assigned other than through `this` in its class, of a class that another class extends, or of a type that
/// may hold an object of a class that asks for no call and whose obligation some method may create anew (Checker Framework
/// manual, Resource Leak Checker, "Owning fields"; the last is this checker's own). The refusal is that at the least place, and there that with the least
/// code. The tables of the program are no longer than numbers reach.
pub fn owning_rule(p: &Program) -> Result<(), Refusal>
    requires { IsNumbered p.now }
    ensures { result ≡ verdict_of (least (owning_cases p.now)) }
{
    verdict_of(least_refusal(p))
}
