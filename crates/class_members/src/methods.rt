//! The methods and constructors of a class or interface by name.

ghost use Rattle.std.specs.Prelude.{◌≡◌, ◌↔◌, Contains, Some, filter, flat_map, IfOk};
ghost use Rattle.program_model.specs.declared.kinds.MethodId.{MethodId};
ghost use Rattle.class_members.specs.Membership.{IsMember};
ghost use Rattle.std.specs.List.{list_any};
ghost use Rattle.program_model.specs.Lookups.{class_at, method_at};
ghost use Rattle.program_model.specs.SuperTests.{classes_above};
ghost use Rattle.program_model.specs.Overrides.{methods_of};
ghost use Rattle.class_members.specs.Members.{constructors_of, declared_methods, has_one, implements, is_accessible, is_below, is_constructor_by, is_constructor_kind, is_named, is_so, keeps, methods_above, methods_named, not_implemented, not_replaced, replaces};

use crate::bodies::goes_before;
use crate::classes::is_interface;
use crate::signatures::{have_one_signature, is_method_kind};
use program_model::{ClassId, Method, MethodId, MethodKind, Program, under};
use rlc_base::NoMemory;
use std::alloc::Global;

pub(crate) fn is_accessible(
    from: ClassId,
    class: ClassId,
    declaring: ClassId,
    is_private: bool,
) -> bool
    ensures { result ≡ is_accessible from class declaring is_private }
{
    !is_private || (declaring.0 == class.0 && declaring.0 == from.0)
}

fn is_named(p: &Program, from: ClassId, class: ClassId, name: &[u8], method: MethodId) -> bool
    ensures { result ≡ is_named p.now from class name.now method }
{
    match p.method(method) {
        None => false,
        Some(m) => {
            is_method_kind(m.kind)
                && m.name.bytes() == name
                && is_accessible(from, class, m.class, m.is_private)
        }
    }
}

fn named_among(
    alloc: Global,
    p: &Program,
    from: ClassId,
    class: ClassId,
    name: &[u8],
    methods: &[MethodId],
) -> Result<Vec<MethodId>, NoMemory>
    ensures { IfOk result (λ v. v.items ≡ filter (is_named p.now from class name.now) methods.now) }
{
    Ok(
        methods
            .iter()
            .copied()
            .filter(|m| is_named(p, from, class, name, *m))
            .collect(alloc)?,
    )
}

fn declared_methods(
    alloc: Global,
    p: &Program,
    from: ClassId,
    class: ClassId,
    name: &[u8],
    declaring: ClassId,
) -> Result<Vec<MethodId>, NoMemory>
    ensures { IfOk result (λ v. v.items ≡ declared_methods p.now from class name.now declaring) }
{
    match p.class(declaring) {
        None => Ok(Vec::new(alloc)),
        Some(found) => named_among(alloc, p, from, class, name, &found.methods),
    }
}

fn declared_among(
    alloc: Global,
    p: &Program,
    from: ClassId,
    class: ClassId,
    name: &[u8],
    above: &[ClassId],
) -> Result<Vec<MethodId>, NoMemory>
    ensures { IfOk result (λ v. v.items ≡ flat_map (declared_methods p.now from class name.now) above.now) }
{
    let mut found = Vec::new(alloc);
    for declaring in above {
        let own = declared_methods(alloc, p, from, class, name, *declaring)?;
        found.extend_from_slice(&own)?;
    }
    Ok(found)
}

fn methods_above(
    alloc: Global,
    p: &Program,
    from: ClassId,
    class: ClassId,
    name: &[u8],
) -> Result<Vec<MethodId>, NoMemory>
    ensures { IfOk result (λ v. v.items ≡ methods_above p.now from class name.now) }
{
    match p.class(class) {
        None => declared_among(alloc, p, from, class, name, &[class]),
        Some(found) => declared_among(alloc, p, from, class, name, &found.above),
    }
}

fn is_below(p: &Program, class: ClassId, other: ClassId) -> bool
    ensures { result ≡ is_below p.now class other }
{
    under(p, class, other) && class.0 != other.0
}

fn keeps(p: &Program, class: ClassId, m: &Method, other: &Method) -> bool
    ensures { result ≡ keeps p.now class m.now other.now }
{
    !is_interface(p, class) && is_interface(p, other.class) && goes_before(p, class, m, other)
}

fn replaces(p: &Program, class: ClassId, m: &Method, other: &Method) -> bool
    ensures { result ≡ replaces p.now class m.now other.now }
{
    have_one_signature(m, other) && is_below(p, other.class, m.class) && !keeps(p, class, m, other)
}

fn implements(p: &Program, class: ClassId, m: &Method, other: &Method) -> bool
    ensures { result ≡ implements p.now class m.now other.now }
{
    have_one_signature(m, other) && goes_before(p, class, other, m)
}

fn is_replaced_by(p: &Program, class: ClassId, m: &Method, other: MethodId) -> bool
    ensures { result ≡ is_so (replaces p.now class m.now) (method_at p.now other) }
{
    match p.method(other) {
        None => false,
        Some(found) => replaces(p, class, m, found),
    }
}

fn is_replaced_among(p: &Program, class: ClassId, all: &[MethodId], m: &Method) -> bool
    ensures { result ≡ list_any (λ n. is_so (replaces p.now class m.now) (method_at p.now n)) all.now }
{
    all.iter().any(|other| is_replaced_by(p, class, m, *other))
}

fn is_replaced(p: &Program, class: ClassId, all: &[MethodId], method: MethodId) -> bool
    ensures { result ≡ has_one p.now (replaces p.now class) all.now (method_at p.now method) }
{
    match p.method(method) {
        None => false,
        Some(m) => is_replaced_among(p, class, all, m),
    }
}

fn not_replaced(
    alloc: Global,
    p: &Program,
    class: ClassId,
    all: &[MethodId],
) -> Result<Vec<MethodId>, NoMemory>
    ensures { IfOk result (λ v. v.items ≡ not_replaced p.now class all.now) }
{
    Ok(
        all.iter()
            .copied()
            .filter(|m| !is_replaced(p, class, all, *m))
            .collect(alloc)?,
    )
}

fn is_implemented_by(p: &Program, class: ClassId, m: &Method, other: MethodId) -> bool
    ensures { result ≡ is_so (implements p.now class m.now) (method_at p.now other) }
{
    match p.method(other) {
        None => false,
        Some(found) => implements(p, class, m, found),
    }
}

fn is_implemented_among(p: &Program, class: ClassId, all: &[MethodId], m: &Method) -> bool
    ensures { result ≡ list_any (λ n. is_so (implements p.now class m.now) (method_at p.now n)) all.now }
{
    all.iter()
        .any(|other| is_implemented_by(p, class, m, *other))
}

fn is_implemented(p: &Program, class: ClassId, all: &[MethodId], method: MethodId) -> bool
    ensures { result ≡ has_one p.now (implements p.now class) all.now (method_at p.now method) }
{
    match p.method(method) {
        None => false,
        Some(m) => is_implemented_among(p, class, all, m),
    }
}

fn not_implemented(
    alloc: Global,
    p: &Program,
    class: ClassId,
    all: &[MethodId],
) -> Result<Vec<MethodId>, NoMemory>
    ensures { IfOk result (λ v. v.items ≡ not_implemented p.now class all.now) }
{
    Ok(
        all.iter()
            .copied()
            .filter(|m| !is_implemented(p, class, all, *m))
            .collect(alloc)?,
    )
}

fn members(
    alloc: Global,
    p: &Program,
    from: ClassId,
    class: ClassId,
    name: &[u8],
) -> Result<Vec<MethodId>, NoMemory>
    ensures { IfOk result (λ v. v.items ≡ methods_named p.now from class name.now) }
{
    let all = methods_above(alloc, p, from, class, name)?;
    let left = not_replaced(alloc, p, class, &all)?;
    not_implemented(alloc, p, class, &left)
}

/// The methods of the name that are members of the class or interface (JLS 8.2, 8.4.8, 9.2, 9.4.1), as the bodies of `from`
/// find them: own and inherited ones, none that another overrides or hides, and none without a body beside one that is its
/// body in the class. Private ones are found in bodies of their own class alone, and in no other class than that. They
/// stand in class order, each class's in textual order.
pub fn methods_named(
    alloc: Global,
    p: &Program,
    from: ClassId,
    class: ClassId,
    name: &[u8],
) -> Result<Vec<MethodId>, NoMemory>
    ensures computes { IfOk result (λ v. v.items ≡ methods_named p.now from class name.now) }
    ensures members { IfOk result (λ v. (m : MethodId) → Contains v.items m ↔ IsMember p.now from class name.now m) }
{
    members(alloc, p, from, class, name)
}

fn is_constructor_by(p: &Program, from: ClassId, class: ClassId, method: MethodId) -> bool
    ensures { result ≡ is_constructor_by from class (method_at p.now method) }
{
    match p.method(method) {
        None => false,
        Some(m) => {
            matches!(m.kind, MethodKind::Ctor) && is_accessible(from, class, m.class, m.is_private)
        }
    }
}

fn constructors_among(
    alloc: Global,
    p: &Program,
    from: ClassId,
    class: ClassId,
    methods: &[MethodId],
) -> Result<Vec<MethodId>, NoMemory>
    ensures { IfOk result (λ v. v.items ≡ filter (λ m. is_constructor_by from class (method_at p.now m)) methods.now) }
{
    Ok(
        methods
            .iter()
            .copied()
            .filter(|m| is_constructor_by(p, from, class, *m))
            .collect(alloc)?,
    )
}

/// The constructors of a class (JLS 8.8), as the bodies of `from` find them: private ones in the class itself alone. They
/// stand in textual order.
pub fn constructors_of(
    alloc: Global,
    p: &Program,
    from: ClassId,
    class: ClassId,
) -> Result<Vec<MethodId>, NoMemory>
    ensures { IfOk result (λ v. v.items ≡ constructors_of p.now from class) }
{
    match p.class(class) {
        None => Ok(Vec::new(alloc)),
        Some(found) => constructors_among(alloc, p, from, class, &found.methods),
    }
}
