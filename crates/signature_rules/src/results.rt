//! Which overriding methods give less than their callers own.

ghost use Rattle.std.specs.List.{list_all, list_any};
ghost use Rattle.std.specs.Prelude.{◌≡◌, ◌||◌, not};
ghost use Rattle.program_model.specs.declared.program.Class.{Class};
ghost use Rattle.program_model.specs.Lookups.{method_at};
ghost use Rattle.program_model.specs.NameSets.{is_empty};
ghost use Rattle.program_model.specs.SuperTests.{has_class};
ghost use Rattle.must_call_sets.specs.MustCallSets.{must_of_optional};
ghost use Rattle.refusal_order.specs.Refusals.{least, least_of_all, verdict_of};
ghost use Rattle.signature_rules.specs.ResultCases.{all_owe_nothing, are_lost_beside, declares_losing, gives_obligation, has_lost_result, is_lost_beside, may_lose, owes_nothing, result_cases, result_cases_in};

use class_overrides::are_alike;
use must_call_sets::{is_given_as_alias, must_of_optional};
use program_model::{Class, ClassId, Method, MethodId, MethodKind, Program, VType, under};
use refusal_order::{lesser_of, verdict_of, where_true};
use rlc_base::{Code, NameSet, Refusal};

// ---- objects that owe nothing

fn lists(classes: &[ClassId], class: ClassId) -> bool
    ensures { result ≡ has_class classes.now class }
{
    classes.iter().any(|listed| *listed == class)
}

fn owes_nothing(p: &Program, class: &Class) -> bool
    ensures { result ≡ owes_nothing p.now class.now }
{
    class.must.is_subset(NameSet::empty()) && !is_given_as_alias(p, class)
}

fn is_other_or_owes_nothing(p: &Program, class: ClassId, listed: &Class) -> bool
    ensures { result ≡ (not (has_class listed.now.above.items class) || owes_nothing p.now listed.now) }
{
    !lists(&listed.above, class) || owes_nothing(p, listed)
}

fn owe_nothing_under(p: &Program, class: ClassId) -> bool
    ensures { result ≡ list_all (λ (k : Class). not (has_class k.above.items class) || owes_nothing p.now k) p.now.classes.items }
{
    p.classes
        .iter()
        .all(|listed| is_other_or_owes_nothing(p, class, listed))
}

fn all_owe_nothing(p: &Program, vtype: Option<VType>) -> bool
    ensures { result ≡ all_owe_nothing p.now vtype }
{
    match vtype {
        Some(VType::Obj(class)) => !under(p, p.core.string, class) && owe_nothing_under(p, class),
        _ => false,
    }
}

// ---- two methods of a class

// Whether nothing must be called on objects of the type.
fn is_light(p: &Program, vtype: Option<VType>) -> bool
    ensures { result ≡ is_empty (must_of_optional p.now vtype) }
{
    must_of_optional(p, vtype).is_subset(NameSet::empty())
}

fn gives_obligation(p: &Program, n: &Method) -> bool
    ensures { result ≡ gives_obligation p.now n.now }
{
    matches!(n.kind, MethodKind::Instance) && n.sig.owning_result && !is_light(p, n.sig.result)
}

// Whether the method with the number is alike to `n`, and nothing must be called on what it gives, but that may owe a call.
fn may_lose(p: &Program, n: &Method, m: MethodId) -> bool
    ensures { result ≡ may_lose p.now n.now (method_at p.now m) }
{
    match p.method(m) {
        None => false,
        Some(found) => {
            are_alike(found, n)
                && is_light(p, found.sig.result)
                && !all_owe_nothing(p, found.sig.result)
        }
    }
}

fn declares_losing(p: &Program, n: &Method, class: ClassId) -> bool
    ensures { result ≡ declares_losing p.now n.now class }
{
    match p.class(class) {
        None => false,
        Some(found) => found.methods.iter().any(|m| may_lose(p, n, *m)),
    }
}

fn has_losing(p: &Program, class: &Class, n: &Method) -> bool
    ensures { result ≡ list_any (declares_losing p.now n.now) class.now.above.items }
{
    class
        .above
        .iter()
        .any(|above| declares_losing(p, n, *above))
}

fn is_lost_beside(p: &Program, class: &Class, n: MethodId) -> bool
    ensures { result ≡ is_lost_beside p.now class.now (method_at p.now n) }
{
    match p.method(n) {
        None => false,
        Some(found) => gives_obligation(p, found) && has_losing(p, class, found),
    }
}

fn are_lost_beside(p: &Program, class: &Class, other: ClassId) -> bool
    ensures { result ≡ are_lost_beside p.now class.now other }
{
    match p.class(other) {
        None => false,
        Some(found) => found.methods.iter().any(|n| is_lost_beside(p, class, *n)),
    }
}

// Whether the class has two such methods, by itself or from above.
fn has_lost_result(p: &Program, class: &Class) -> bool
    ensures { result ≡ has_lost_result p.now class.now }
{
    class
        .above
        .iter()
        .any(|other| are_lost_beside(p, class, *other))
}

fn refusal_of(p: &Program, class: &Class) -> Option<Refusal>
    ensures { result ≡ least (result_cases_in p.now class.now) }
{
    where_true(
        has_lost_result(p, class),
        Code::BadOwningOverride,
        class.pos,
    )
}

fn refusal_of_all(p: &Program, classes: &[Class]) -> Option<Refusal>
    ensures { result ≡ least_of_all (λ k. least (result_cases_in p.now k)) classes.now }
{
    let mut least = None;
    for class in classes {
        least = lesser_of(least, refusal_of(p, class));
    }
    least
}

#[tactic(auto, using(crate::proofs::ResultLaws::of_each))]
fn least_refusal(p: &Program) -> Option<Refusal>
    ensures { result ≡ least (result_cases p.now) }
{
    refusal_of_all(p, &p.classes)
}

/// Refuses a class that has two methods of one name and one parameter list, by itself or from above, neither private, where callers of the one, an
/// instance method, own what something must be called on, and on what the other gives nothing must be called by its type, though it may be an
/// object that owes a call: one of a class with an obligation under that type, an alias, or a text. It is refused at the least such class.
pub fn result_rule(p: &Program) -> Result<(), Refusal>
    ensures { result ≡ verdict_of (least (result_cases p.now)) }
{
    verdict_of(least_refusal(p))
}
