//! Which results (JLS 8.4.5) and which throws clauses (JLS 8.4.8.3) may stand for which.

ghost use Rattle.std.specs.Prelude.{◌≡◌, Some};
ghost use Rattle.class_members.specs.Results.{covers, is_checked, is_result_under, may_throw, throws_no_more};

use crate::signatures::is_type;
use java_conversions::{fits, is_reference};
use program_model::{ClassId, Method, Program, VType, under};

fn is_type_under(p: &Program, t: VType, other: VType) -> bool
    ensures { result ≡ is_result_under p.now (Some t) (Some other) }
{
    is_type(t, other) || (is_reference(t) && is_reference(other) && fits(p, t, other))
}

/// Whether a method with the first result may stand where one with the second is wanted: the two are of one type, or are
/// none, or the first is a reference type and a subtype of the second (JLS 8.4.5). None is the result of `void`.
pub fn is_result_under(p: &Program, t: Option<VType>, other: Option<VType>) -> bool
    ensures { result ≡ is_result_under p.now t other }
{
    match t {
        None => other.is_none(),
        Some(t) => match other {
            None => false,
            Some(other) => is_type_under(p, t, other),
        },
    }
}

// Whether exceptions of the class are checked (JLS 11.1.1): it is under neither `RuntimeException` nor `Error`. The class is
// one of a throws clause, and so under `Throwable`.
fn is_checked(p: &Program, class: ClassId) -> bool
    ensures { result ≡ is_checked p.now class }
{
    !under(p, class, p.core.runtime_exception) && !under(p, class, p.core.error)
}

// Whether the throws clause has the class or one above it.
fn covers(p: &Program, clause: &[ClassId], class: ClassId) -> bool
    ensures { result ≡ covers p.now clause.now class }
{
    clause.iter().any(|covering| under(p, class, *covering))
}

fn may_throw(p: &Program, clause: &[ClassId], class: ClassId) -> bool
    ensures { result ≡ may_throw p.now clause.now class }
{
    !is_checked(p, class) || covers(p, clause, class)
}

/// Whether each checked class of the throws clause of `m` is covered by that of `n`.
pub fn throws_no_more(p: &Program, m: &Method, n: &Method) -> bool
    ensures { result ≡ throws_no_more p.now m.now n.now }
{
    m.sig
        .throws
        .iter()
        .all(|class| may_throw(p, &n.sig.throws, *class))
}
