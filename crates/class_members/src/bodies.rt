//! Which methods have a body in a class.

ghost use Rattle.std.specs.Prelude.{◌≡◌};
ghost use Rattle.std.specs.List.{list_any};
ghost use Rattle.program_model.specs.Lookups.{class_at};
ghost use Rattle.program_model.specs.SuperTests.{classes_above};
ghost use Rattle.program_model.specs.Overrides.{carries, is_carried};
ghost use Rattle.class_members.specs.Bodies.{goes_before, has_body};

use crate::classes::{is_interface, is_library};
use program_model::{ClassId, Method, Program, under};

fn carries(p: &Program, interface: ClassId, class: ClassId) -> bool
    ensures { result ≡ carries p.now interface class }
{
    is_library(p, class) && !is_interface(p, class) && under(p, class, interface)
}

fn is_carried_by(p: &Program, interface: ClassId, above: &[ClassId]) -> bool
    ensures { result ≡ list_any (carries p.now interface) above.now }
{
    above.iter().any(|class| carries(p, interface, *class))
}

fn is_carried_in(p: &Program, class: ClassId, interface: ClassId) -> bool
    ensures { result ≡ list_any (carries p.now interface) (classes_above class (class_at p.now class)) }
{
    match p.class(class) {
        None => is_carried_by(p, interface, &[class]),
        Some(found) => is_carried_by(p, interface, &found.above),
    }
}

/// Whether the methods of the interface have a body in the class: a stub declares it, and the class is under a class of a
/// stub that is under it.
pub fn is_carried(p: &Program, class: ClassId, interface: ClassId) -> bool
    ensures { result ≡ is_carried p.now class interface }
{
    is_library(p, interface) && is_interface(p, interface) && is_carried_in(p, class, interface)
}

/// Whether the method, which the class declares or has from above, has a body in it. One that a class of a stub declares
/// counts as having one.
pub fn has_body(p: &Program, class: ClassId, m: &Method) -> bool
    ensures { result ≡ has_body p.now class m.now }
{
    if is_interface(p, m.class) {
        is_carried(p, class, m.class)
    } else {
        !m.is_abstract || is_library(p, m.class)
    }
}

/// Whether in the class the body of `m` goes before that of the other method: the other has none, or `m` is declared by a class
/// and the other by an interface.
pub(crate) fn goes_before(p: &Program, class: ClassId, m: &Method, other: &Method) -> bool
    ensures { result ≡ goes_before p.now class m.now other.now }
{
    has_body(p, class, m)
        && (!has_body(p, class, other)
            || (is_interface(p, other.class) && !is_interface(p, m.class)))
}
