//! How statements end (JLS 14.1, 14.22).

ghost use Rattle.std.specs.Prelude.{◌≡◌};
ghost use Rattle.java_statement_rules.specs.Completions.{abrupt, and_then, breaking, continuing, do_completion, is_always_true, is_one, is_truth_value, loop_completion, loop_that, normal, one_of};

use java_conversions::is_boolean;
use java_typed_trees::{Facts, type_of};
use program_model::VType;

/// How a statement may end that is reached, beside by an exception or a `return`.
#[derive(Clone, Copy)]
pub struct Completion {
    /// It can complete normally.
    pub completes: bool,
    /// A reachable `break` in it exits the innermost loop around it.
    pub breaks: bool,
    /// A reachable `continue` in it continues the innermost loop around it.
    pub continues: bool,
}

// A loop's own jumps end in it.
fn loop_that(completes: bool) -> Completion
    ensures { result ≡ loop_that completes }
{
    Completion {
        completes,
        breaks: false,
        continues: false,
    }
}

/// Of a statement that completes normally.
pub fn normal() -> Completion
    ensures { result ≡ normal }
{
    loop_that(true)
}

/// Of `return` and `throw`.
pub fn abrupt() -> Completion
    ensures { result ≡ abrupt }
{
    loop_that(false)
}

/// Of `break`.
pub fn breaking() -> Completion
    ensures { result ≡ breaking }
{
    Completion {
        completes: false,
        breaks: true,
        continues: false,
    }
}

/// Of `continue`.
pub fn continuing() -> Completion
    ensures { result ≡ continuing }
{
    Completion {
        completes: false,
        breaks: false,
        continues: true,
    }
}

/// Of two statements one behind the other: the second is reachable where the first can complete normally.
pub fn and_then(a: Completion, b: Completion) -> Completion
    ensures { result ≡ and_then a b }
{
    Completion {
        completes: a.completes && b.completes,
        breaks: a.breaks || (a.completes && b.breaks),
        continues: a.continues || (a.completes && b.continues),
    }
}

/// Of two statements of which one runs.
pub fn one_of(a: Completion, b: Completion) -> Completion
    ensures { result ≡ one_of a b }
{
    Completion {
        completes: a.completes || b.completes,
        breaks: a.breaks || b.breaks,
        continues: a.continues || b.continues,
    }
}

fn is_one(value: Option<i64>) -> bool
    ensures { result ≡ is_one value }
{
    match value {
        None => false,
        Some(n) => n == 1,
    }
}

fn is_truth_value(vtype: Option<VType>) -> bool
    ensures { result ≡ is_truth_value vtype }
{
    match vtype {
        None => false,
        Some(found) => is_boolean(found),
    }
}

/// Whether it is a constant expression with the value `true` (JLS 15.29).
pub fn is_always_true(e: Facts) -> bool
    ensures { result ≡ is_always_true e }
{
    is_truth_value(type_of(e)) && is_one(e.constant)
}

/// Of `while` and `for` (JLS 14.22). `always`: the condition is always true, so that only a `break` ends the loop.
pub fn loop_completion(always: bool, body: Completion) -> Completion
    ensures { result ≡ loop_completion always body }
{
    loop_that(!always || body.breaks)
}

/// Of `do` (JLS 14.22): the condition is reached where the body can complete normally or goes on.
pub fn do_completion(always: bool, body: Completion) -> Completion
    ensures { result ≡ do_completion always body }
{
    loop_that(((body.completes || body.continues) && !always) || body.breaks)
}
