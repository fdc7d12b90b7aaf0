//! The least refusal of a rule over all overridings of a program, by what each class declares or runs. No call takes memory.

ghost use Rattle.std.specs.Prelude.{◌≡◌, not, if◌then◌else◌, Some, None, flat_map};
ghost use Rattle.refusal_order.specs.Refusals.{least, least_of_all};
ghost use Rattle.program_model.specs.Lookups.{method_at};
ghost use Rattle.program_model.specs.SuperTests.{is_class};
ghost use Rattle.program_model.specs.Validity.{IsNumbered};
ghost use Rattle.program_model.specs.Overrides.{declared_overrides, is_abstract, is_alike, is_joined, joined_override, joined_overrides, methods_of, override_at, overrides_in, overrides_of, run_method};
ghost use Rattle.must_call_sets.specs.Overridings.{overridings};
ghost use Rattle.override_rules.specs.Rules.{case_of, cases_of};

use crate::rule::{OverrideRule, override_case};
use class_overrides::{is_alike, method_run};
use program_model::{ClassId, Method, MethodId, Program, under};
use refusal_order::lesser_of;
use rlc_base::Refusal;

#[tactic(auto, using(crate::proofs::WalkLaws::one_case))]
fn declared_case(p: &Program, rule: OverrideRule, n: &Method, m: MethodId) -> Option<Refusal>
    ensures { result ≡ least_of_all (case_of rule p.now) (override_at n.now (method_at p.now m)) }
{
    match p.method(m) {
        None => None,
        Some(found) => override_case(p, rule, found, n, found.pos),
    }
}

fn alike_case(p: &Program, rule: OverrideRule, n: &Method, m: MethodId) -> Option<Refusal>
    ensures { result ≡ (if is_alike p.now n.now m then least_of_all (case_of rule p.now) (override_at n.now (method_at p.now m)) else None) }
{
    if is_alike(p, n, m) {
        declared_case(p, rule, n, m)
    } else {
        None
    }
}

fn alike_cases(p: &Program, rule: OverrideRule, n: &Method, methods: &[MethodId]) -> Option<Refusal>
    ensures { result ≡ least_of_all (λ m. if is_alike p.now n.now m then least_of_all (case_of rule p.now) (override_at n.now (method_at p.now m)) else None) methods.now }
{
    let mut least = None;
    for m in methods {
        least = lesser_of(least, alike_case(p, rule, n, *m));
    }
    least
}

// The least refusal of the methods that a class declares, and that override `n`.
#[tactic(auto, using(crate::proofs::WalkLaws::declared_law))]
fn declared_cases(p: &Program, rule: OverrideRule, class: ClassId, n: &Method) -> Option<Refusal>
    ensures { result ≡ least_of_all (case_of rule p.now) (declared_overrides p.now class n.now) }
{
    match p.class(class) {
        None => None,
        Some(found) => alike_cases(p, rule, n, &found.methods),
    }
}

fn is_joined(p: &Program, class: ClassId, m: &Method, n: &Method) -> bool
    ensures { result ≡ is_joined p.now class m.now n.now }
{
    m.class != class && !under(p, m.class, n.class)
}

#[tactic(auto, using(crate::proofs::WalkLaws::one_case))]
fn joined_by(
    p: &Program,
    rule: OverrideRule,
    class: ClassId,
    n: &Method,
    m: &Method,
) -> Option<Refusal>
    ensures { result ≡ least_of_all (case_of rule p.now) (joined_override p.now class n.now (Some m.now)) }
{
    if is_joined(p, class, m, n) {
        match p.class(class) {
            None => None,
            Some(found) => override_case(p, rule, m, n, found.pos),
        }
    } else {
        None
    }
}

fn joined_run(
    p: &Program,
    rule: OverrideRule,
    class: ClassId,
    n: &Method,
    run: Option<MethodId>,
) -> Option<Refusal>
    ensures { result ≡ least_of_all (case_of rule p.now) (joined_override p.now class n.now (run_method p.now run)) }
{
    match run {
        None => None,
        Some(method) => match p.method(method) {
            None => None,
            Some(m) => joined_by(p, rule, class, n, m),
        },
    }
}

fn is_abstract(p: &Program, class: ClassId) -> bool
    ensures { result ≡ is_abstract p.now class }
{
    match p.class(class) {
        None => false,
        Some(found) => found.is_abstract,
    }
}

// The refusal of the method that a class runs for `n` without declaring it.
fn joined_case(p: &Program, rule: OverrideRule, class: ClassId, n: &Method) -> Option<Refusal>
    ensures { result ≡ least_of_all (case_of rule p.now) (joined_overrides p.now class n.now) }
{
    if is_abstract(p, class) {
        None
    } else {
        joined_run(p, rule, class, n, method_run(p, n, class))
    }
}

#[tactic(auto, using(crate::proofs::WalkLaws::both_law))]
fn method_cases(p: &Program, rule: OverrideRule, class: ClassId, n: &Method) -> Option<Refusal>
    ensures { result ≡ least_of_all (case_of rule p.now) (overrides_of p.now class (Some n.now)) }
{
    let declared = declared_cases(p, rule, class, n);
    lesser_of(declared, joined_case(p, rule, class, n))
}

fn cases_for(p: &Program, rule: OverrideRule, class: ClassId, method: MethodId) -> Option<Refusal>
    ensures { result ≡ least_of_all (case_of rule p.now) (overrides_of p.now class (method_at p.now method)) }
{
    match p.method(method) {
        None => None,
        Some(n) => method_cases(p, rule, class, n),
    }
}

fn cases_for_each(
    p: &Program,
    rule: OverrideRule,
    class: ClassId,
    methods: &[MethodId],
) -> Option<Refusal>
    ensures { result ≡ least_of_all (λ n. least_of_all (case_of rule p.now) (overrides_of p.now class (method_at p.now n))) methods.now }
{
    let mut least = None;
    for method in methods {
        least = lesser_of(least, cases_for(p, rule, class, *method));
    }
    least
}

// The least refusal of what a class overrides of the methods of another class.
fn cases_against(p: &Program, rule: OverrideRule, class: ClassId, other: ClassId) -> Option<Refusal>
    ensures { result ≡ (if not (is_class other class) then least_of_all (λ n. least_of_all (case_of rule p.now) (overrides_of p.now class (method_at p.now n))) (methods_of p.now other) else None) }
{
    if other == class {
        None
    } else {
        match p.class(other) {
            None => None,
            Some(found) => cases_for_each(p, rule, class, &found.methods),
        }
    }
}

fn cases_against_each(
    p: &Program,
    rule: OverrideRule,
    class: ClassId,
    above: &[ClassId],
) -> Option<Refusal>
    ensures { result ≡ least_of_all (λ d. if not (is_class d class) then least_of_all (λ n. least_of_all (case_of rule p.now) (overrides_of p.now class (method_at p.now n))) (methods_of p.now d) else None) above.now }
{
    let mut least = None;
    for other in above {
        least = lesser_of(least, cases_against(p, rule, class, *other));
    }
    least
}

#[tactic(auto, using(crate::proofs::WalkLaws::class_law))]
fn class_case(p: &Program, rule: OverrideRule, class: ClassId) -> Option<Refusal>
    ensures { result ≡ least_of_all (case_of rule p.now) (overrides_in p.now class) }
{
    match p.class(class) {
        None => cases_against_each(p, rule, class, &[class]),
        Some(found) => cases_against_each(p, rule, class, &found.above),
    }
}

/// The least refusal of the rule over all overridings of the program: by the methods that a class declares, and by those
/// that a class which is not abstract runs for a type beside that method's class (JLS 8.4.8.1, 9.4.1). It takes no memory.
pub fn least_override(p: &Program, rule: OverrideRule) -> Option<Refusal>
    requires { IsNumbered p.now }
    ensures { result ≡ least (flat_map (cases_of rule p.now) (overridings p.now)) }
{
    let mut least = None;
    for number in 0..p.classes.len() {
        let class = ClassId(number as u32);
        least = lesser_of(least, class_case(p, rule, class));
    }
    least
}
