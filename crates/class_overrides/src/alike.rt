//! Methods of one name and one parameter list, of which one may override the other.

ghost use Rattle.std.specs.Prelude.{◌≡◌};
ghost use Rattle.std.specs.List.{find};
ghost use Rattle.program_model.specs.Lookups.{method_at};
ghost use Rattle.program_model.specs.Overrides.{are_alike, class_in, has_code, is_alike, is_static_kind, methods_of};

use class_members::{are_types, is_library, is_method_kind};
use program_model::{ClassId, Method, MethodId, MethodKind, Program};

pub(crate) fn is_static_kind(kind: MethodKind) -> bool
    ensures { result ≡ is_static_kind kind }
{
    matches!(kind, MethodKind::Static)
}

/// Whether the two are methods of one name and one parameter list, neither private and not both static: where one is
/// declared above the other, it is overridden (JLS 8.4.8.1).
pub fn are_alike(m: &Method, n: &Method) -> bool
    ensures { result ≡ are_alike m.now n.now }
{
    is_method_kind(m.kind)
        && is_method_kind(n.kind)
        && !(is_static_kind(m.kind) && is_static_kind(n.kind))
        && !m.is_private
        && !n.is_private
        && m.name == n.name
        && are_types(&m.sig.params, &n.sig.params)
}

/// Whether the method with the number is alike to `n`.
pub fn is_alike(p: &Program, n: &Method, method: MethodId) -> bool
    ensures { result ≡ is_alike p.now n.now method }
{
    match p.method(method) {
        None => false,
        Some(m) => are_alike(m, n),
    }
}

fn alike_among(p: &Program, n: &Method, methods: &[MethodId]) -> Option<MethodId>
    ensures { result ≡ find (is_alike p.now n.now) methods.now }
{
    methods.iter().copied().find(|m| is_alike(p, n, *m))
}

pub(crate) fn alike_in(p: &Program, n: &Method, class: ClassId) -> Option<MethodId>
    ensures { result ≡ find (is_alike p.now n.now) (methods_of p.now class) }
{
    match p.class(class) {
        None => None,
        Some(found) => alike_among(p, n, &found.methods),
    }
}

pub(crate) fn has_code(p: &Program, method: MethodId) -> bool
    ensures { result ≡ has_code p.now method }
{
    match p.method(method) {
        None => false,
        Some(m) => !m.is_abstract || is_library(p, m.class),
    }
}

pub(crate) fn class_of_method(p: &Program, method: MethodId) -> Option<ClassId>
    ensures { result ≡ class_in (method_at p.now method) }
{
    match p.method(method) {
        None => None,
        Some(m) => Some(m.class),
    }
}
