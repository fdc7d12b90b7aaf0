//! Too many classes.

ghost use Rattle.std.specs.Prelude.{◌≡◌, map};
ghost use Rattle.refusal_order.specs.Refusals.{least};
ghost use Rattle.class_order.specs.Cases.{too_many_cases};
ghost use Rattle.class_order.specs.Declarations.{declaration_of};

use crate::declared::Declared;
use rlc_base::{Code, Refusal};

/// How many classes a program has at most, those of the stubs included.
pub const MAX_CLASSES: usize = 4096;

/// The refusal of too many classes, code 62 at the first class past 4,096.
pub fn too_many_classes(order: &[Declared]) -> Option<Refusal>
    ensures { result ≡ least (too_many_cases (map declaration_of order.now)) }
{
    match order.get(MAX_CLASSES) {
        None => None,
        Some(class) => Some(Refusal {
            code: Code::TooManyClasses,
            pos: class.declaration.name.pos,
        }),
    }
}
