//! The method of a stub's interface that has a body in a class: of several the first that no other overrides.

ghost use Rattle.std.specs.Prelude.{◌≡◌, ◌&&◌, slice_get};
ghost use Rattle.std.specs.List.{find, list_all};
ghost use Rattle.std.specs.Option.{is_some};
ghost use Rattle.program_model.specs.Overrides.{are_under, carried_methods, is_carried, is_no_higher, methods_of, most_specific};
ghost use Rattle.class_overrides.specs.CarriedMethods.{best_in, carried_among, is_best, is_passed, passes};

use crate::alike::{class_of_method, is_alike};
use class_members::is_carried;
use program_model::{ClassId, Method, MethodId, Program, under};

fn are_under(p: &Program, class: Option<ClassId>, other: Option<ClassId>) -> bool
    ensures { result ≡ are_under p.now class other }
{
    match class {
        None => false,
        Some(class) => match other {
            None => false,
            Some(other) => under(p, class, other),
        },
    }
}

fn is_no_higher(p: &Program, m: MethodId, other: MethodId) -> bool
    ensures { result ≡ is_no_higher p.now m other }
{
    let class = class_of_method(p, m);
    let of_other = class_of_method(p, other);
    are_under(p, class, of_other) || !are_under(p, of_other, class)
}

fn is_passed(p: &Program, n: &Method, m: MethodId, other: MethodId) -> bool
    ensures { result ≡ is_passed p.now n.now m other }
{
    !is_alike(p, n, other) || is_no_higher(p, m, other)
}

fn passes_each(p: &Program, n: &Method, m: MethodId, others: &[MethodId]) -> bool
    ensures { result ≡ list_all (is_passed p.now n.now m) others.now }
{
    others.iter().all(|other| is_passed(p, n, m, *other))
}

fn passes_in(p: &Program, n: &Method, m: MethodId, class: ClassId) -> bool
    ensures { result ≡ list_all (is_passed p.now n.now m) (methods_of p.now class) }
{
    match p.class(class) {
        None => true,
        Some(found) => passes_each(p, n, m, &found.methods),
    }
}

fn passes(p: &Program, n: &Method, class: ClassId, m: MethodId, other: ClassId) -> bool
    ensures { result ≡ passes p.now n.now class m other }
{
    !is_carried(p, class, other) || passes_in(p, n, m, other)
}

fn passes_all(p: &Program, n: &Method, class: ClassId, m: MethodId, above: &[ClassId]) -> bool
    ensures { result ≡ list_all (passes p.now n.now class m) above.now }
{
    above.iter().all(|other| passes(p, n, class, m, *other))
}

fn is_best(p: &Program, n: &Method, class: ClassId, above: &[ClassId], m: MethodId) -> bool
    ensures { result ≡ is_best p.now n.now class above.now m }
{
    is_alike(p, n, m) && passes_all(p, n, class, m, above)
}

fn best_among(
    p: &Program,
    n: &Method,
    class: ClassId,
    above: &[ClassId],
    methods: &[MethodId],
) -> Option<MethodId>
    ensures { result ≡ find (is_best p.now n.now class above.now) methods.now }
{
    methods
        .iter()
        .copied()
        .find(|m| is_best(p, n, class, above, *m))
}

fn best_in(
    p: &Program,
    n: &Method,
    class: ClassId,
    above: &[ClassId],
    other: ClassId,
) -> Option<MethodId>
    ensures { result ≡ best_in p.now n.now class above.now other }
{
    match p.class(other) {
        None => None,
        Some(found) => best_among(p, n, class, above, &found.methods),
    }
}

fn has_best(p: &Program, n: &Method, class: ClassId, above: &[ClassId], other: ClassId) -> bool
    ensures { result ≡ (is_carried p.now class other && is_some (best_in p.now n.now class above.now other)) }
{
    is_carried(p, class, other) && best_in(p, n, class, above, other).is_some()
}

fn class_with_best(p: &Program, n: &Method, class: ClassId, above: &[ClassId]) -> Option<ClassId>
    ensures { result ≡ find (λ d. is_carried p.now class d && is_some (best_in p.now n.now class above.now d)) above.now }
{
    above
        .iter()
        .copied()
        .find(|other| has_best(p, n, class, above, *other))
}

#[tactic(auto, using(crate::proofs::CarriedMethods::carried_by_class))]
fn best_of_all(p: &Program, n: &Method, class: ClassId, above: &[ClassId]) -> Option<MethodId>
    ensures { result ≡ slice_get (most_specific p.now (carried_among p.now n.now class above.now)) 0 }
{
    match class_with_best(p, n, class, above) {
        None => None,
        Some(other) => best_in(p, n, class, above, other),
    }
}

pub(crate) fn carried_run(p: &Program, n: &Method, class: ClassId) -> Option<MethodId>
    ensures { result ≡ slice_get (most_specific p.now (carried_methods p.now n.now class)) 0 }
{
    match p.class(class) {
        None => best_of_all(p, n, class, &[class]),
        Some(found) => best_of_all(p, n, class, &found.above),
    }
}
