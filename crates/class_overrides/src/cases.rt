//! The refusals of a class's overriding methods.

ghost use Rattle.std.specs.Prelude.{◌≡◌, ◌++◌, not, filter, flat_map, IfOk, OnOk, Some};
ghost use Rattle.program_model.specs.Lookups.{class_at, method_at, optional};
ghost use Rattle.program_model.specs.SuperTests.{is_class};
ghost use Rattle.program_model.specs.Overrides.{declared_overrides, is_abstract, is_alike, is_joined, joined_override, joined_overrides, methods_of, overrides_of, run_method};
ghost use Rattle.class_overrides.specs.Cases.{class_cases, override_case, override_cases};
ghost use Rattle.class_overrides.specs.Steps.{cases_against, cases_for, declared_case};

use crate::alike::is_alike;
use crate::lacking::body_case;
use crate::overriding::override_refusal;
use crate::runs::method_run;
use program_model::{ClassId, Method, MethodId, Program, under};
use rlc_base::{NoMemory, Refusal};
use std::alloc::Global;

fn put(found: &mut Vec<Refusal>, refusal: Option<Refusal>) -> Result<(), NoMemory>
    ensures { OnOk result (found.new.items ≡ found.old.items ++ optional refusal) }
{
    match refusal {
        None => Ok(()),
        Some(refusal) => Ok(found.push(refusal)?),
    }
}

fn declared_case(p: &Program, n: &Method, m: MethodId) -> Option<Refusal>
    ensures { optional result ≡ declared_case p.now n.now m }
{
    match p.method(m) {
        None => None,
        Some(found) => override_refusal(p, found, n, found.pos),
    }
}

fn alike_methods(
    alloc: Global,
    p: &Program,
    n: &Method,
    methods: &[MethodId],
) -> Result<Vec<MethodId>, NoMemory>
    ensures { IfOk result (λ v. v.items ≡ filter (is_alike p.now n.now) methods.now) }
{
    Ok(
        methods
            .iter()
            .copied()
            .filter(|m| is_alike(p, n, *m))
            .collect(alloc)?,
    )
}

fn alike_cases(
    alloc: Global,
    p: &Program,
    n: &Method,
    methods: &[MethodId],
) -> Result<Vec<Refusal>, NoMemory>
    ensures { IfOk result (λ v. v.items ≡ flat_map (declared_case p.now n.now) methods.now) }
{
    let mut found = Vec::new(alloc);
    for m in methods {
        put(&mut found, declared_case(p, n, *m))?;
    }
    Ok(found)
}

fn cases_among(
    alloc: Global,
    p: &Program,
    n: &Method,
    methods: &[MethodId],
) -> Result<Vec<Refusal>, NoMemory>
    ensures { IfOk result (λ v. v.items ≡ flat_map (declared_case p.now n.now) (filter (is_alike p.now n.now) methods.now)) }
{
    let alike = alike_methods(alloc, p, n, methods)?;
    alike_cases(alloc, p, n, &alike)
}

#[tactic(auto, using(crate::proofs::OverrideSteps::declared_steps))]
fn declared_cases(
    alloc: Global,
    p: &Program,
    class: ClassId,
    n: &Method,
) -> Result<Vec<Refusal>, NoMemory>
    ensures { IfOk result (λ v. v.items ≡ flat_map (override_case p.now) (declared_overrides p.now class n.now)) }
{
    match p.class(class) {
        None => Ok(Vec::new(alloc)),
        Some(found) => cases_among(alloc, p, n, &found.methods),
    }
}

fn is_joined(p: &Program, class: ClassId, m: &Method, n: &Method) -> bool
    ensures { result ≡ is_joined p.now class m.now n.now }
{
    m.class.0 != class.0 && !under(p, m.class, n.class)
}

fn joined_by(p: &Program, class: ClassId, m: &Method, n: &Method) -> Option<Refusal>
    ensures { optional result ≡ flat_map (override_case p.now) (joined_override p.now class n.now (Some m.now)) }
{
    if is_joined(p, class, m, n) {
        match p.class(class) {
            None => None,
            Some(found) => override_refusal(p, m, n, found.pos),
        }
    } else {
        None
    }
}

fn joined_run(p: &Program, class: ClassId, n: &Method, run: Option<MethodId>) -> Option<Refusal>
    ensures { optional result ≡ flat_map (override_case p.now) (joined_override p.now class n.now (run_method p.now run)) }
{
    match run {
        None => None,
        Some(method) => match p.method(method) {
            None => None,
            Some(m) => joined_by(p, class, m, n),
        },
    }
}

fn is_abstract(p: &Program, class: ClassId) -> bool
    ensures { result ≡ is_abstract p.now class }
{
    match p.class(class) {
        None => false,
        Some(found) => found.is_abstract,
    }
}

fn joined_case(p: &Program, class: ClassId, n: &Method) -> Option<Refusal>
    ensures { optional result ≡ flat_map (override_case p.now) (joined_overrides p.now class n.now) }
{
    if is_abstract(p, class) {
        None
    } else {
        joined_run(p, class, n, method_run(p, n, class))
    }
}

#[tactic(auto, using(crate::proofs::OverrideSteps::both_steps))]
fn method_cases(
    alloc: Global,
    p: &Program,
    class: ClassId,
    n: &Method,
) -> Result<Vec<Refusal>, NoMemory>
    ensures { IfOk result (λ v. v.items ≡ flat_map (override_case p.now) (overrides_of p.now class (Some n.now))) }
{
    let mut found = declared_cases(alloc, p, class, n)?;
    put(&mut found, joined_case(p, class, n))?;
    Ok(found)
}

fn cases_for(
    alloc: Global,
    p: &Program,
    class: ClassId,
    method: MethodId,
) -> Result<Vec<Refusal>, NoMemory>
    ensures { IfOk result (λ v. v.items ≡ cases_for p.now class method) }
{
    match p.method(method) {
        None => Ok(Vec::new(alloc)),
        Some(n) => method_cases(alloc, p, class, n),
    }
}

fn cases_for_each(
    alloc: Global,
    p: &Program,
    class: ClassId,
    methods: &[MethodId],
) -> Result<Vec<Refusal>, NoMemory>
    ensures { IfOk result (λ v. v.items ≡ flat_map (cases_for p.now class) methods.now) }
{
    let mut found = Vec::new(alloc);
    for method in methods {
        let cases = cases_for(alloc, p, class, *method)?;
        found.extend_from_slice(&cases)?;
    }
    Ok(found)
}

fn cases_against(
    alloc: Global,
    p: &Program,
    class: ClassId,
    other: ClassId,
) -> Result<Vec<Refusal>, NoMemory>
    ensures { IfOk result (λ v. v.items ≡ cases_against p.now class other) }
{
    match p.class(other) {
        None => Ok(Vec::new(alloc)),
        Some(found) => cases_for_each(alloc, p, class, &found.methods),
    }
}

fn other_classes(alloc: Global, class: ClassId, above: &[ClassId]) -> Result<Vec<ClassId>, NoMemory>
    ensures { IfOk result (λ v. v.items ≡ filter (λ d. not (is_class d class)) above.now) }
{
    Ok(
        above
            .iter()
            .copied()
            .filter(|other| other.0 != class.0)
            .collect(alloc)?,
    )
}

fn cases_against_each(
    alloc: Global,
    p: &Program,
    class: ClassId,
    others: &[ClassId],
) -> Result<Vec<Refusal>, NoMemory>
    ensures { IfOk result (λ v. v.items ≡ flat_map (cases_against p.now class) others.now) }
{
    let mut found = Vec::new(alloc);
    for other in others {
        let cases = cases_against(alloc, p, class, *other)?;
        found.extend_from_slice(&cases)?;
    }
    Ok(found)
}

fn cases_against_others(
    alloc: Global,
    p: &Program,
    class: ClassId,
    above: &[ClassId],
) -> Result<Vec<Refusal>, NoMemory>
    ensures { IfOk result (λ v. v.items ≡ flat_map (cases_against p.now class) (filter (λ d. not (is_class d class)) above.now)) }
{
    let others = other_classes(alloc, class, above)?;
    cases_against_each(alloc, p, class, &others)
}

/// The overridings by methods that the class declares, or runs without declaring them, which may not be (JLS 8.4.8): each a
/// refusal at the overriding method, or at the class's name where the class does not declare it.
#[tactic(auto, using(crate::proofs::OverrideSteps::all_steps))]
pub fn override_cases(alloc: Global, p: &Program, class: ClassId) -> Result<Vec<Refusal>, NoMemory>
    ensures { IfOk result (λ v. v.items ≡ override_cases p.now class) }
{
    match p.class(class) {
        None => cases_against_others(alloc, p, class, &[class]),
        Some(found) => cases_against_others(alloc, p, class, &found.above),
    }
}

/// All refusals of a class or interface that are due to the methods which it declares or has from above: of overriding
/// methods that may not be, and of a class that is not abstract and lacks a body for a method.
pub fn class_cases(alloc: Global, p: &Program, class: ClassId) -> Result<Vec<Refusal>, NoMemory>
    ensures { IfOk result (λ v. v.items ≡ class_cases p.now class) }
{
    let mut found = override_cases(alloc, p, class)?;
    put(&mut found, body_case(p, class))?;
    Ok(found)
}
