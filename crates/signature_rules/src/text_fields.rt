//! Which owning fields may hold a text whose obligation some method may create anew.

ghost use Rattle.std.specs.List.{list_any};
ghost use Rattle.std.specs.Prelude.{◌≡◌, ◌&&◌, Some};
ghost use Rattle.refusal_order.specs.Refusals.{least, least_of_all, verdict_of};
ghost use Rattle.signature_rules.specs.TextFieldCases.{may_be_text, may_own_renewed_text, may_renew_text, text_field_cases, text_field_cases_in};

use must_call_sets::type_at_some;
use program_model::{Field, Method, Program, VType, under};
use refusal_order::{lesser_of, verdict_of, where_true};
use rlc_base::{Code, Refusal};

// Whether a text may stand where this is the type: it is `String`, or a class or interface above it.
fn may_be_text(p: &Program, vtype: Option<VType>) -> bool
    ensures { result ≡ may_be_text p.now vtype }
{
    match vtype {
        Some(VType::Str) => true,
        Some(VType::Obj(class)) => under(p, p.core.string, class),
        Some(VType::Primitive(_) | VType::Arr(_) | VType::NullType) | None => false,
    }
}

fn may_renew_text(p: &Program, method: &Method) -> bool
    ensures { result ≡ may_renew_text p.now method.now }
{
    may_be_text(p, type_at_some(&method.sig, method.sig.reset))
}

// Whether some method creates anew the obligation of what may be a text.
fn may_renew_texts(p: &Program) -> bool
    ensures { result ≡ list_any (may_renew_text p.now) p.now.methods.items }
{
    p.methods.iter().any(|method| may_renew_text(p, method))
}

fn may_be_renewed(p: &Program, vtype: VType) -> bool
    ensures { result ≡ (may_be_text p.now (Some vtype) && list_any (may_renew_text p.now) p.now.methods.items) }
{
    may_be_text(p, Some(vtype)) && may_renew_texts(p)
}

fn may_own_renewed_text(p: &Program, field: &Field) -> bool
    ensures { result ≡ may_own_renewed_text p.now field.now }
{
    field.owning && may_be_renewed(p, field.vtype)
}

fn refusal_of(p: &Program, field: &Field) -> Option<Refusal>
    ensures { result ≡ least (text_field_cases_in p.now field.now) }
{
    where_true(
        may_own_renewed_text(p, field),
        Code::OwningFieldShape,
        field.pos,
    )
}

fn refusal_of_all(p: &Program, fields: &[Field]) -> Option<Refusal>
    ensures { result ≡ least_of_all (λ x. least (text_field_cases_in p.now x)) fields.now }
{
    let mut least = None;
    for field in fields {
        least = lesser_of(least, refusal_of(p, field));
    }
    least
}

#[tactic(auto, using(crate::proofs::ResultLaws::of_each))]
fn least_refusal(p: &Program) -> Option<Refusal>
    ensures { result ≡ least (text_field_cases p.now) }
{
    refusal_of_all(p, &p.fields)
}

/// Refuses an owning field that may hold a text, where some method may create the obligation of a text anew: its type is `String` or above it, and so
/// is that of the method's target. It is refused at the least such field.
pub fn text_field_rule(p: &Program) -> Result<(), Refusal>
    ensures { result ≡ verdict_of (least (text_field_cases p.now)) }
{
    verdict_of(least_refusal(p))
}
