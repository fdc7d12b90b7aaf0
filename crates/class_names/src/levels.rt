//! The levels on which a name is looked up.

ghost use Rattle.std.specs.Prelude.{◌≡◌};
ghost use Rattle.std.specs.List.{list_any};
ghost use Rattle.class_names.specs.ClassNames.{class_at, name_of_class};
ghost use Rattle.class_names.specs.Meanings.{has, has_dot, is_import_of, is_import_on_demand_of, is_on, is_seen, is_seen_on, joined, meaning_among, meaning_of, meaning_on, or_next, qualified_meaning, unit_of};

use crate::class_name::ClassName;
use crate::meaning::Meaning;
use crate::names::ClassNames;
use crate::scope::Scope;
use java_syntax::Import;
use program_model::ClassId;

/// The levels on which a simple name is looked up, the first first (JLS 6.4.1).
#[derive(Clone, Copy)]
pub enum Level {
    /// What the compilation unit declares, and its single-type imports (JLS 7.5.1).
    OwnOrImported,
    /// The package of the unit (JLS 7.4).
    OfPackage,
    /// What the unit imports on demand (JLS 7.5.2), and `java.lang` (JLS 7.3).
    OnDemand,
}

// Whether one of the imports is the single-type import of the class with this name.
fn is_imported(imports: &[Import], name: &[u8]) -> bool
    ensures { result ≡ list_any (is_import_of name.now) imports.now }
{
    imports.iter().any(|i| !i.star && name == i.name.bytes())
}

// Whether one of the imports is that on demand of the package.
fn is_imported_on_demand(imports: &[Import], package_name: &[u8]) -> bool
    ensures { result ≡ list_any (is_import_on_demand_of package_name.now) imports.now }
{
    imports
        .iter()
        .any(|i| i.star && package_name == i.name.bytes())
}

// Whether a class, with its qualified name, has a simple name on the level.
fn is_on(scope: &Scope, level: Level, class: &ClassName, name: &[u8]) -> bool
    requires { name.now ≡ name_of_class class.now }
    ensures { result ≡ is_on (unit_of scope.now) level class.now }
{
    match level {
        Level::OwnOrImported => {
            class.unit == scope.number || is_imported(&scope.unit.imports, name)
        }
        Level::OfPackage => class.package.bytes() == scope.unit.package.bytes(),
        Level::OnDemand => {
            class.package.bytes() == b"java.lang".as_slice()
                || is_imported_on_demand(&scope.unit.imports, class.package.bytes())
        }
    }
}

// Whether a class is seen, and has a simple name on the level.
fn is_seen_on(names: &ClassNames, scope: &Scope, level: Level, class: ClassId) -> bool
    ensures { result ≡ has (is_seen_on (unit_of scope.now) level) (class_at names.now class) }
{
    match names.class(class) {
        None => false,
        Some(found) => {
            (!scope.library || found.library) && is_on(scope, level, found, names.name(class))
        }
    }
}

// Whether a class is seen.
fn is_seen(names: &ClassNames, scope: &Scope, class: ClassId) -> bool
    ensures { result ≡ has (is_seen (unit_of scope.now)) (class_at names.now class) }
{
    match names.class(class) {
        None => false,
        Some(found) => !scope.library || found.library,
    }
}

// What is meant, with one class more.
fn joined(meaning: Meaning, class: ClassId) -> Meaning
    ensures { result ≡ joined meaning class }
{
    match meaning {
        Meaning::NoClass => Meaning::Named(class),
        Meaning::Named(_) => Meaning::TwoClasses,
        Meaning::TwoClasses => Meaning::TwoClasses,
    }
}

// What a simple name means by one level alone, where these are the classes of that name.
fn meaning_on(names: &ClassNames, scope: &Scope, classes: &[ClassId], level: Level) -> Meaning
    ensures { result ≡ meaning_on names.now (unit_of scope.now) classes.now level }
{
    let mut meaning = Meaning::NoClass;
    for class in classes {
        if is_seen_on(names, scope, level, *class) {
            meaning = joined(meaning, *class);
        }
    }
    meaning
}

// What a simple name means, where these are the classes of that name.
fn meaning_among(names: &ClassNames, scope: &Scope, classes: &[ClassId]) -> Meaning
    ensures { result ≡ meaning_among names.now (unit_of scope.now) classes.now }
{
    match meaning_on(names, scope, classes, Level::OwnOrImported) {
        Meaning::Named(class) => Meaning::Named(class),
        Meaning::TwoClasses => Meaning::TwoClasses,
        Meaning::NoClass => match meaning_on(names, scope, classes, Level::OfPackage) {
            Meaning::Named(class) => Meaning::Named(class),
            Meaning::TwoClasses => Meaning::TwoClasses,
            Meaning::NoClass => meaning_on(names, scope, classes, Level::OnDemand),
        },
    }
}

// Whether there is a dot in the name.
fn has_dot(name: &[u8]) -> bool
    ensures { result ≡ has_dot name.now }
{
    name.iter().any(|b| *b == b'.')
}

// What a qualified name means.
fn qualified_meaning(names: &ClassNames, scope: &Scope, name: &[u8]) -> Meaning
    ensures { result ≡ qualified_meaning names.now (unit_of scope.now) name.now }
{
    match names.find(name) {
        None => Meaning::NoClass,
        Some(class) => {
            if is_seen(names, scope, class) {
                Meaning::Named(class)
            } else {
                Meaning::NoClass
            }
        }
    }
}

/// What a name means as that of a class in a compilation unit (JLS 6.5.5). A simple name is looked up on three levels: what
/// the unit declares or imports singly; the other classes of its package; what it imports on demand, and `java.lang`. The
/// first level that has one decides. A qualified name is that of its one class. In a stub only the classes of stubs are seen.
pub fn meaning_of(names: &ClassNames, scope: &Scope, name: &[u8]) -> Meaning
    ensures { result ≡ meaning_of names.now (unit_of scope.now) name.now }
{
    if has_dot(name) {
        qualified_meaning(names, scope, name)
    } else {
        meaning_among(names, scope, names.simply_named(name))
    }
}
