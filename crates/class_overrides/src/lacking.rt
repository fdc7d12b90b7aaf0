//! Abstract methods for which a class has no body (JLS 8.1.1.1).

ghost use Rattle.std.specs.Prelude.{◌≡◌, Some};
ghost use Rattle.std.specs.List.{list_any};
ghost use Rattle.program_model.specs.Lookups.{method_at, optional};
ghost use Rattle.class_overrides.specs.Cases.{body_cases, is_abstract_method, is_instance_kind, lacks, lacks_by, lacks_of};

use crate::runs::method_run;
use class_members::is_interface;
use program_model::{ClassId, Method, MethodId, MethodKind, Program};
use rlc_base::{Code, Refusal};

fn is_instance_kind(kind: MethodKind) -> bool
    ensures { result ≡ is_instance_kind kind }
{
    matches!(kind, MethodKind::Instance)
}

fn is_abstract_method(p: &Program, n: &Method) -> bool
    ensures { result ≡ is_abstract_method p.now n.now }
{
    is_instance_kind(n.kind) && !n.is_private && (n.is_abstract || is_interface(p, n.class))
}

fn lacks_method(p: &Program, class: ClassId, n: &Method) -> bool
    ensures { result ≡ lacks_by p.now class (Some n.now) }
{
    is_abstract_method(p, n) && method_run(p, n, class).is_none()
}

fn lacks(p: &Program, class: ClassId, method: MethodId) -> bool
    ensures { result ≡ lacks p.now class method }
{
    match p.method(method) {
        None => false,
        Some(n) => lacks_method(p, class, n),
    }
}

fn lacks_one(p: &Program, class: ClassId, methods: &[MethodId]) -> bool
    ensures { result ≡ list_any (lacks p.now class) methods.now }
{
    methods.iter().any(|method| lacks(p, class, *method))
}

fn lacks_of(p: &Program, class: ClassId, other: ClassId) -> bool
    ensures { result ≡ lacks_of p.now class other }
{
    match p.class(other) {
        None => false,
        Some(found) => lacks_one(p, class, &found.methods),
    }
}

fn lacks_any(p: &Program, class: ClassId, above: &[ClassId]) -> bool
    ensures { result ≡ list_any (lacks_of p.now class) above.now }
{
    above.iter().any(|other| lacks_of(p, class, *other))
}

/// The refusal of a class that is not abstract and has no body for an abstract method which it or a class above it declares
/// (JLS 8.1.1.1), at the class's name.
pub fn body_case(p: &Program, class: ClassId) -> Option<Refusal>
    ensures { optional result ≡ body_cases p.now class }
{
    match p.class(class) {
        None => None,
        Some(found) => {
            if !found.is_abstract && lacks_any(p, class, &found.above) {
                Some(Refusal {
                    code: Code::NotAbstract,
                    pos: found.pos,
                })
            } else {
                None
            }
        }
    }
}
