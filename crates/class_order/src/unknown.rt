//! Names of classes outside of bodies that mean no class, or two.

ghost use Rattle.std.specs.Prelude.{◌≡◌, map};
ghost use Rattle.refusal_order.specs.Refusals.{least};
ghost use Rattle.class_names.specs.Meanings.{unit_of};
ghost use Rattle.class_order.specs.Declarations.{declaration_of};
ghost use Rattle.class_order.specs.UnknownNames.{unknown_at, unknown_cases, unknown_name, unknown_names, unknown_supers};

use crate::declared::Declared;
use class_names::{ClassNames, Meaning, Scope, meaning_of};
use java_syntax::Name;
use refusal_order::lesser_of;
use rlc_base::{Code, Pos, Refusal};

// The refusal of a name at this place with this meaning.
fn unknown_at(pos: Pos, meaning: Meaning) -> Option<Refusal>
    ensures { result ≡ least (unknown_at pos meaning) }
{
    match meaning {
        Meaning::Named(_) => None,
        Meaning::NoClass => Some(Refusal {
            code: Code::UnknownType,
            pos,
        }),
        Meaning::TwoClasses => Some(Refusal {
            code: Code::UnknownType,
            pos,
        }),
    }
}

/// The refusal of a name of a class in a unit, code 31 at the name: one that means no class, or two.
pub fn unknown_name(names: &ClassNames, scope: &Scope, name: &Name) -> Option<Refusal>
    ensures { result ≡ least (unknown_name names.now (unit_of scope.now) name.now) }
{
    unknown_at(name.pos, meaning_of(names, scope, name.text.bytes()))
}

/// The least refusal of names of classes in a unit, code 31 at the name: one that means no class, or two.
pub fn unknown_names(names: &ClassNames, scope: &Scope, written: &[Name]) -> Option<Refusal>
    ensures { result ≡ least (unknown_names names.now (unit_of scope.now) written.now) }
{
    let mut found = None;
    for name in written {
        found = lesser_of(found, unknown_name(names, scope, name));
    }
    found
}

/// The least refusal of the names of super types of a class, code 31 at the name: one that means no class, or two.
pub fn unknown_supers(names: &ClassNames, class: &Declared) -> Option<Refusal>
    ensures { result ≡ least (unknown_supers names.now (declaration_of class.now)) }
{
    let interfaces = unknown_names(names, &class.scope, &class.declaration.interfaces);
    match &class.declaration.superclass {
        None => interfaces,
        Some(name) => lesser_of(unknown_name(names, &class.scope, name), interfaces),
    }
}

/// The least refusal of the names of super types of all classes, code 31 at the name: one that means no class, or two.
pub fn unknown_cases(names: &ClassNames, order: &[Declared]) -> Option<Refusal>
    ensures { result ≡ least (unknown_cases names.now (map declaration_of order.now)) }
{
    let mut found = None;
    for class in order {
        found = lesser_of(found, unknown_supers(names, class));
    }
    found
}
