//! Super types of a wrong kind.

ghost use Rattle.std.specs.Prelude.{◌≡◌, map, not, option_map};
ghost use Rattle.std.specs.List.{list_any};
ghost use Rattle.std.specs.Option.{option_copied};
ghost use Rattle.program_model.specs.Lookups.{optional};
ghost use Rattle.refusal_order.specs.Refusals.{least};
ghost use Rattle.class_headers.specs.Cases.{bad_super_case, bad_super_cases, bad_super_of, has_bad_super, is_abstract, is_extensible, is_final, is_interface};
ghost use Rattle.class_order.specs.Declarations.{declaration_of};
ghost use Rattle.class_headers.specs.SuperTypes.{supers_of};

use crate::supers::Supers;
use class_order::{Declared, has_abstract, has_final};
use java_syntax::ClassDecl;
use program_model::ClassId;
use refusal_order::{lesser_of, where_true};
use rlc_base::{Code, Refusal};

/// Whether `final` stands before a class (JLS 8.1.1.2).
pub fn is_final(class: &ClassDecl) -> bool
    ensures { result ≡ is_final class.now }
{
    has_final(&class.modifiers)
}

/// Whether `abstract` stands before a class (JLS 8.1.1.1).
pub fn is_abstract(class: &ClassDecl) -> bool
    ensures { result ≡ is_abstract class.now }
{
    has_abstract(&class.modifiers)
}

// Whether the class with this number is an interface.
fn is_interface(order: &[Declared], class: ClassId) -> bool
    ensures { result ≡ is_interface (map declaration_of order.now) class }
{
    match order.get(class.0 as usize) {
        None => false,
        Some(declared) => declared.declaration.is_interface,
    }
}

// Whether another class may extend the class with this number.
fn is_extensible(order: &[Declared], class: ClassId) -> bool
    ensures { result ≡ is_extensible (map declaration_of order.now) class }
{
    match order.get(class.0 as usize) {
        None => false,
        Some(declared) => !(declared.declaration.is_interface || is_final(declared.declaration)),
    }
}

// Whether a class that may be there is none that another may extend.
fn is_no_superclass(order: &[Declared], class: Option<ClassId>) -> bool
    ensures { result ≡ list_any (λ c. not (is_extensible (map declaration_of order.now) c)) (optional class) }
{
    match class {
        None => false,
        Some(class) => !is_extensible(order, class),
    }
}

// Whether one of the classes is no interface.
fn has_no_interface(order: &[Declared], classes: &[ClassId]) -> bool
    ensures { result ≡ list_any (λ c. not (is_interface (map declaration_of order.now) c)) classes.now }
{
    classes.iter().any(|class| !is_interface(order, *class))
}

// Whether a super type is of a wrong kind.
fn has_bad_super(order: &[Declared], supers: &Supers) -> bool
    ensures { result ≡ has_bad_super (map declaration_of order.now) (supers_of supers.now) }
{
    let extends = is_no_superclass(order, supers.super_class);
    let implements = has_no_interface(order, &supers.interfaces);
    extends || implements
}

// The refusal of a class's super types, where they are there.
fn bad_super_of(order: &[Declared], class: &Declared, supers: Option<&Supers>) -> Option<Refusal>
    ensures { result ≡ least (bad_super_of (map declaration_of order.now) (declaration_of class.now) (option_map supers_of (option_copied supers.entry))) }
{
    match supers {
        None => None,
        Some(own) => where_true(
            has_bad_super(order, own),
            Code::BadSuper,
            class.declaration.name.pos,
        ),
    }
}

// The refusal of the super types of the class with this number.
fn bad_super_case(order: &[Declared], supers: &[Supers], number: usize) -> Option<Refusal>
    ensures { result ≡ least (bad_super_case (map declaration_of order.now) (map supers_of supers.now) number) }
{
    match order.get(number) {
        None => None,
        Some(class) => bad_super_of(order, class, supers.get(number)),
    }
}

/// The least refusal of super types of a wrong kind, code 34 at the class: an interface or a final class that is extended,
/// or a class that is implemented or extended by an interface.
pub fn bad_supers(order: &[Declared], supers: &[Supers]) -> Option<Refusal>
    ensures { result ≡ least (bad_super_cases (map declaration_of order.now) (map supers_of supers.now)) }
{
    let mut found = None;
    for number in 0..order.len() {
        found = lesser_of(found, bad_super_case(order, supers, number));
    }
    found
}
