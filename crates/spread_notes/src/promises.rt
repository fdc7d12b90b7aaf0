//! The methods that the library calls on an object by their names.

ghost use Rattle.std.specs.Prelude.{◌≡◌};
ghost use Rattle.std.specs.List.{find};
ghost use Rattle.program_model.specs.Lookups.{class_at};
ghost use Rattle.program_model.specs.Overrides.{methods_of, super_in};
ghost use Rattle.ledger_obligations.specs.Obligations.{is_name, is_named, method_named};

use program_model::{ClassId, MethodId, Program};
use rlc_base::NameId;

fn super_of(p: &Program, class: ClassId) -> Option<ClassId>
    ensures { result ≡ super_in (class_at p.now class) }
{
    match p.class(class) {
        None => None,
        Some(found) => found.sup,
    }
}

fn is_name(name: NameId, interest: Option<NameId>) -> bool
    ensures { result ≡ is_name name interest }
{
    match interest {
        None => false,
        Some(found) => found.0 == name.0,
    }
}

fn is_named(p: &Program, name: NameId, method: MethodId) -> bool
    ensures { result ≡ is_named p.now name method }
{
    match p.method(method) {
        None => false,
        Some(m) => !m.is_private && is_name(name, m.sig.interest),
    }
}

fn named_among(p: &Program, name: NameId, methods: &[MethodId]) -> Option<MethodId>
    ensures { result ≡ find (is_named p.now name) methods.now }
{
    methods.iter().copied().find(|m| is_named(p, name, *m))
}

fn named_in(p: &Program, name: NameId, class: ClassId) -> Option<MethodId>
    ensures { result ≡ find (is_named p.now name) (methods_of p.now class) }
{
    match p.class(class) {
        None => None,
        Some(found) => named_among(p, name, &found.methods),
    }
}

/// The instance method without parameters of this name, of the class or else of the nearest super class that has one.
pub(crate) fn method_named(p: &Program, class: ClassId, name: NameId) -> Option<MethodId>
    ensures { result ≡ method_named p.now class name }
{
    let mut next = Some(class);
    for step in 0..p.classes.len() {
        match next {
            None => return None,
            Some(class) => match named_in(p, name, class) {
                Some(found) => return Some(found),
                None => next = super_of(p, class),
            },
        }
    }
    None
}
