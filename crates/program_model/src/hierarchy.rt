//! The relation of super types, and which exceptions are ignored.

ghost use Rattle.std.specs.Prelude.{◌≡◌, ◌↔◌, IsTrue};
ghost use Rattle.std.specs.List.{list_any};
ghost use Rattle.program_model.specs.Hierarchy.{IsHierarchy, IsIgnored, IsUnder};
ghost use Rattle.program_model.specs.SuperTests.{has_class, is_ignored, is_under};

use crate::kinds::ClassId;
use crate::program::Program;

// Whether `class` is one of `classes`.
fn has_class(classes: &[ClassId], class: ClassId) -> bool
    ensures { result ≡ has_class classes.now class }
{
    classes.iter().any(|x| *x == class)
}

/// Whether `class` is `other` or a subtype of it (JLS 4.10.2). Object is above every interface too.
pub fn under(p: &Program, class: ClassId, other: ClassId) -> bool
    ensures computes { result ≡ is_under p.now class other }
    ensures relation { IsHierarchy p.now → (IsTrue result ↔ IsUnder p.now class other) }
{
    match p.class(class) {
        None => class == other,
        Some(found) => has_class(&found.above, other),
    }
}

// Whether `class` is under one of `others`.
fn is_under_any(p: &Program, class: ClassId, others: &[ClassId]) -> bool
    ensures { result ≡ list_any (λ d. is_under p.now class d) others.now }
{
    others.iter().any(|other| under(p, class, *other))
}

/// Whether exceptions of the class are ignored: those of the default settings are `java.lang.RuntimeException` and
/// `java.lang.Error` with their subclasses.
pub fn is_ignored(p: &Program, class: ClassId) -> bool
    ensures computes { result ≡ is_ignored p.now class }
    ensures relation { IsHierarchy p.now → (IsTrue result ↔ IsIgnored p.now class) }
{
    is_under_any(p, class, &p.ignored) || has_class(&p.exact, class)
}
