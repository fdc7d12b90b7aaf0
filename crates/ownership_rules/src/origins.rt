//! A birth: an origin with its first fact.

ghost use Rattle.std.specs.Prelude.{◌≡◌};
ghost use Rattle.control_actions.specs.PlaceNumbers.{IsSmall};
ghost use Rattle.ownership_rules.specs.Births.{born, class_in, class_of, fact_at, origin_of};

use control_actions::{Fact, Mode, Origin, OriginKind, Place, Places};
use must_call_sets::must;
use program_model::{ClassId, Program, VType};
use rlc_base::{NameSet, Pos};

// What must be called first is all that must be called on the class, but where a signature bounds it.
fn origin_of(
    p: &Program,
    kind: OriginKind,
    pos: Pos,
    class: ClassId,
    first: Option<NameSet>,
) -> Origin
    ensures { result ≡ origin_of p.now kind pos class first }
{
    match first {
        None => Origin {
            kind,
            pos,
            class,
            first: must(p, class),
            full: must(p, class),
        },
        Some(first) => Origin {
            kind,
            pos,
            class,
            first,
            full: must(p, class),
        },
    }
}

/// The first fact of an object that is born in a place. Its origin is 0 until it is numbered.
pub(crate) fn fact_at(place: Place, mode: Mode, called: NameSet, full: bool) -> Fact
    requires { IsSmall place }
    ensures { result ≡ fact_at place mode called full }
{
    Fact {
        origin: 0,
        places: Places::empty().with(place),
        mode,
        called,
        full,
    }
}

fn class_in(vtype: VType) -> Option<ClassId>
    ensures { result ≡ class_in vtype }
{
    match vtype {
        VType::Obj(class) => Some(class),
        _ => None,
    }
}

// The class of a class type other than `String`.
fn class_of(vtype: Option<VType>) -> Option<ClassId>
    ensures { result ≡ class_of vtype }
{
    match vtype {
        None => None,
        Some(found) => class_in(found),
    }
}

/// A birth where the place has a class type.
pub(crate) fn born(
    p: &Program,
    kind: OriginKind,
    pos: Pos,
    vtype: Option<VType>,
    first: Option<NameSet>,
    fact: Fact,
) -> Option<(Origin, Fact)>
    ensures { result ≡ born p.now kind pos vtype first fact }
{
    match class_of(vtype) {
        None => None,
        Some(class) => Some((origin_of(p, kind, pos, class, first), fact)),
    }
}
