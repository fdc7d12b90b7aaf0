//! How exceptions leave calls.

ghost use Rattle.std.specs.Prelude.{◌≡◌};
ghost use Rattle.std.specs.List.{find, list_any};
ghost use Rattle.ledger_calls.specs.Calls.{is_stray_from, leaves_by};
ghost use Rattle.program_model.specs.Lookups.{method_at};
ghost use Rattle.program_model.specs.SuperTests.{is_under};

use crate::signatures::throws_of;
use program_model::{ClassId, MethodId, Program, is_ignored, under};

fn first_above(p: &Program, class: ClassId, classes: &[ClassId]) -> Option<ClassId>
    ensures { result ≡ find (is_under p.now class) classes.now }
{
    classes.iter().copied().find(|c| under(p, class, *c))
}

fn is_under_some(p: &Program, class: ClassId, classes: &[ClassId]) -> bool
    ensures { result ≡ list_any (is_under p.now class) classes.now }
{
    classes.iter().any(|c| under(p, class, *c))
}

/// The class by which an exception leaves a call of the named method: the first that it is under of the throws clause, in
/// its order, then of `RuntimeException` and `Error` (JLS 11.1.1).
#[tactic(auto, using(crate::proofs::FindLaws::found_first, crate::proofs::FindLaws::found_behind))]
pub fn leaves_by(p: &Program, named: MethodId, class: ClassId) -> Option<ClassId>
    ensures { result ≡ leaves_by p.now (method_at p.now named) class }
{
    match first_above(p, class, throws_of(p, named)) {
        Some(found) => Some(found),
        None => first_above(p, class, &[p.core.runtime_exception, p.core.error]),
    }
}

/// Whether an exception leaves a call of the named method as a stray one: its class is ignored, and it is under no class of
/// the throws clause.
pub fn is_stray_from(p: &Program, named: MethodId, class: ClassId) -> bool
    ensures { result ≡ is_stray_from p.now (method_at p.now named) class }
{
    is_ignored(p, class) && !is_under_some(p, class, throws_of(p, named))
}
