//! Which methods that create an obligation anew are refused.

ghost use Rattle.std.specs.Prelude.{◌≡◌};
ghost use Rattle.program_model.specs.Validity.{IsNumbered};
ghost use Rattle.must_call_sets.specs.OwningCases.{is_class_type};
ghost use Rattle.must_call_sets.specs.ResetCases.{has_bad_target, is_class_type_in, is_finalizer_below, is_some_finalizer, reset_cases, reset_cases_of_method};
ghost use Rattle.refusal_order.specs.Refusals.{least, least_of_all, verdict_of};

use must_call_sets::{is_must_call_method, type_at};
use override_rules::{OverrideRule, least_override};
use program_model::{ClassId, Method, Program, VType, under};
use refusal_order::{lesser_of, verdict_of, where_true};
use rlc_base::{Code, Refusal};

// A class or interface type, `String` among them.
fn is_class_type(vtype: VType) -> bool
    ensures { result ≡ is_class_type vtype }
{
    match vtype {
        VType::Obj(_) => true,
        VType::Str => true,
        _ => false,
    }
}

fn is_class_type_in(vtype: Option<VType>) -> bool
    ensures { result ≡ is_class_type_in vtype }
{
    match vtype {
        None => false,
        Some(found) => is_class_type(found),
    }
}

// Whether the target's type is no class type.
fn has_bad_target(method: &Method) -> bool
    ensures { result ≡ has_bad_target method.now method.now.sig.reset }
{
    match method.sig.reset {
        None => false,
        Some(position) => !is_class_type_in(type_at(&method.sig, position)),
    }
}

// Whether it is a must-call method of the class, which is its own or one under it.
fn is_finalizer_below(p: &Program, method: &Method, class: ClassId) -> bool
    ensures { result ≡ is_finalizer_below p.now method.now class }
{
    under(p, class, method.class) && is_must_call_method(p, class, method)
}

// Whether it is a must-call method of its class, or of a class under it.
#[tactic(auto, using(crate::proofs::ResetLaws::any_laws))]
fn is_some_finalizer(p: &Program, method: &Method) -> bool
    requires { IsNumbered p.now }
    ensures { result ≡ is_some_finalizer p.now method.now }
{
    let count = p.classes.len();
    for class in 0..count {
        if is_finalizer_below(p, method, ClassId(class as u32)) {
            return true;
        }
    }
    false
}

#[tactic(auto, using(crate::proofs::ResetLaws::case_laws))]
fn method_refusal(p: &Program, method: &Method) -> Option<Refusal>
    requires { IsNumbered p.now }
    ensures { result ≡ least (reset_cases_of_method p.now method.now) }
{
    let misplaced = where_true(has_bad_target(method), Code::BadReset, method.pos);
    let finalizes = method.sig.reset.is_some() && is_some_finalizer(p, method);
    lesser_of(misplaced, where_true(finalizes, Code::BadReset, method.pos))
}

// The least refusal of a method by itself.
fn least_of_methods(p: &Program, methods: &[Method]) -> Option<Refusal>
    requires { IsNumbered p.now }
    ensures { result ≡ least_of_all (λ m. least (reset_cases_of_method p.now m)) methods.now }
{
    let mut found = None;
    for method in methods {
        found = lesser_of(found, method_refusal(p, method));
    }
    found
}

fn least_refusal(p: &Program) -> Option<Refusal>
    requires { IsNumbered p.now }
    ensures { result ≡ least (reset_cases p.now) }
{
    lesser_of(
        least_of_methods(p, &p.methods),
        least_override(p, OverrideRule::Reset),
    )
}

/// Refuses a method that creates anew the obligation of what is not of a class type, a must-call method that creates one
/// anew, and an overriding method that creates one anew which the overridden method does not (Checker Framework manual,
/// Resource Leak Checker, "Creating obligations"). The refusal is that at the least place, and there that with the least
/// code. The tables of the program are no longer than numbers reach.
pub fn reset_rule(p: &Program) -> Result<(), Refusal>
    requires { IsNumbered p.now }
    ensures { result ≡ verdict_of (least (reset_cases p.now)) }
{
    verdict_of(least_refusal(p))
}
