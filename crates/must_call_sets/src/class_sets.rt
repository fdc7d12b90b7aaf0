//! The names that must be called on the objects of a type (Checker Framework manual, Must Call Checker).

ghost use Rattle.std.specs.Prelude.{◌≡◌};
ghost use Rattle.must_call_sets.specs.MustCallSets.{beyond_type, fits, fits_type, is_heavy_as, is_heavy_class, must_of, must_of_optional, must_of_type};

use program_model::{ClassId, Program, VType};
use rlc_base::NameSet;

/// The must-call set of a class; a number of no class has the empty one.
pub fn must(p: &Program, class: ClassId) -> NameSet
    ensures { result ≡ must_of p.now class }
{
    match p.class(class) {
        None => NameSet::empty(),
        Some(found) => found.must,
    }
}

/// The must-call set of a type. Only class types other than `String` have one that is not empty.
pub fn must_of_type(p: &Program, vtype: VType) -> NameSet
    ensures { result ≡ must_of_type p.now vtype }
{
    match vtype {
        VType::Obj(class) => must(p, class),
        _ => NameSet::empty(),
    }
}

/// The must-call set of a type, where there is one, and else the empty one.
pub fn must_of_optional(p: &Program, vtype: Option<VType>) -> NameSet
    ensures { result ≡ must_of_optional p.now vtype }
{
    match vtype {
        None => NameSet::empty(),
        Some(found) => must_of_type(p, found),
    }
}

/// Whether all that must be called on the objects of `from` must be called on those of `to`.
pub fn fits(p: &Program, from: ClassId, to: ClassId) -> bool
    ensures { result ≡ fits p.now from to }
{
    must(p, from).is_subset(must(p, to))
}

/// Whether some method must be called on the objects of the class.
pub fn is_heavy_class(p: &Program, class: ClassId) -> bool
    ensures { result ≡ is_heavy_class p.now class }
{
    !must(p, class).is_subset(NameSet::empty())
}

/// Whether some method must be called on the objects of the class, or on those of the declared type.
pub fn is_heavy_as(p: &Program, class: ClassId, vtype: Option<VType>) -> bool
    ensures { result ≡ is_heavy_as p.now class vtype }
{
    is_heavy_class(p, class) || !must_of_optional(p, vtype).is_subset(NameSet::empty())
}

/// Whether all that must be called on the objects of the class must be called on those of the declared type.
pub fn fits_type(p: &Program, class: ClassId, vtype: Option<VType>) -> bool
    ensures { result ≡ fits_type p.now class vtype }
{
    must(p, class).is_subset(must_of_optional(p, vtype))
}

/// What must be called on the objects of the class and need not be on those of the declared type.
pub fn beyond_type(p: &Program, class: ClassId, vtype: Option<VType>) -> NameSet
    ensures { result ≡ beyond_type p.now class vtype }
{
    must(p, class).minus(must_of_optional(p, vtype))
}
