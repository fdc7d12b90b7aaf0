//! Super types of a wrong kind.

ghost use Rattle.std.specs.Prelude.{◌≡◌, map};
ghost use Rattle.refusal_order.specs.Refusals.{least};
ghost use Rattle.class_order.specs.Declarations.{declaration_of};
ghost use Rattle.class_headers.specs.SuperTypes.{supers_of};
ghost use Rattle.super_checks.specs.SuperCases.{class_above_interface, classes_above_interfaces, kind_cases_by};

use class_headers::{Supers, bad_supers};
use class_order::Declared;
use refusal_order::{lesser_of, where_true};
use rlc_base::{Code, Refusal};

// The refusal of an interface that extends a class.
fn class_above_interface(class: &Declared) -> Option<Refusal>
    ensures { result ≡ least (class_above_interface (declaration_of class.now)) }
{
    let extends = class.declaration.superclass.is_some();
    where_true(
        class.declaration.is_interface && extends,
        Code::BadSuper,
        class.declaration.name.pos,
    )
}

// The least refusal of interfaces that extend a class.
fn classes_above_interfaces(order: &[Declared]) -> Option<Refusal>
    ensures { result ≡ least (classes_above_interfaces (map declaration_of order.now)) }
{
    let mut found = None;
    for class in order {
        found = lesser_of(found, class_above_interface(class));
    }
    found
}

/// The least refusal of super types of a wrong kind, code 34 at the class: an interface or a final class that is extended, a
/// class that is implemented, or that an interface extends.
pub fn kind_refusal(order: &[Declared], supers: &[Supers]) -> Option<Refusal>
    ensures { result ≡ least (kind_cases_by (map declaration_of order.now) (map supers_of supers.now)) }
{
    let bad = bad_supers(order, supers);
    let interfaces = classes_above_interfaces(order);
    lesser_of(bad, interfaces)
}
