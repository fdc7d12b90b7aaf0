//! The most specific of several methods (JLS 15.12.2.5).

ghost use Rattle.std.specs.Prelude.{◌≡◌, ◌&&◌, IfOk, Some};
ghost use Rattle.std.specs.List.{find, list_all};
ghost use Rattle.program_model.specs.Lookups.{method_at};
ghost use Rattle.java_overloads.specs.Overloads.{each_narrower, gives_under, is_most_specific, is_narrower, is_preferred, most_specific, preferred, throws_least, throws_under};

use class_members::{is_result_under, throws_no_more};
use java_conversions::fits;
use program_model::{Method, MethodId, ParamSig, Program};
use rlc_base::NoMemory;
use std::alloc::Global;

fn each_narrower(p: &Program, params: &[ParamSig], others: &[ParamSig]) -> bool
    ensures { result ≡ each_narrower p.now params.now others.now }
{
    params
        .iter()
        .zip(others)
        .all(|x| fits(p, x.0.vtype, x.1.vtype))
}

fn is_narrower_method(p: &Program, m: &Method, other: MethodId) -> bool
    ensures { result ≡ is_narrower p.now (Some m.now) (method_at p.now other) }
{
    match p.method(other) {
        None => false,
        Some(found) => each_narrower(p, &m.sig.params, &found.sig.params),
    }
}

fn is_narrower(p: &Program, method: MethodId, other: MethodId) -> bool
    ensures { result ≡ is_narrower p.now (method_at p.now method) (method_at p.now other) }
{
    match p.method(method) {
        None => false,
        Some(m) => is_narrower_method(p, m, other),
    }
}

fn is_most_specific(p: &Program, all: &[MethodId], method: MethodId) -> bool
    ensures { result ≡ is_most_specific p.now all.now method }
{
    all.iter().all(|other| is_narrower(p, method, *other))
}

pub(crate) fn most_specific(
    alloc: Global,
    p: &Program,
    all: &[MethodId],
) -> Result<Vec<MethodId>, NoMemory>
    ensures { IfOk result (λ v. v.items ≡ most_specific p.now all.now) }
{
    Ok(
        all.iter()
            .copied()
            .filter(|m| is_most_specific(p, all, *m))
            .collect(alloc)?,
    )
}

fn gives_under_method(p: &Program, m: &Method, other: MethodId) -> bool
    ensures { result ≡ gives_under p.now (Some m.now) (method_at p.now other) }
{
    match p.method(other) {
        None => false,
        Some(found) => is_result_under(p, m.sig.result, found.sig.result),
    }
}

fn gives_under(p: &Program, method: MethodId, other: MethodId) -> bool
    ensures { result ≡ gives_under p.now (method_at p.now method) (method_at p.now other) }
{
    match p.method(method) {
        None => false,
        Some(m) => gives_under_method(p, m, other),
    }
}

fn is_preferred(p: &Program, all: &[MethodId], method: MethodId) -> bool
    ensures { result ≡ is_preferred p.now all.now method }
{
    all.iter().all(|other| gives_under(p, method, *other))
}

fn throws_under_method(p: &Program, m: &Method, other: MethodId) -> bool
    ensures { result ≡ throws_under p.now (Some m.now) (method_at p.now other) }
{
    match p.method(other) {
        None => false,
        Some(found) => throws_no_more(p, m, found),
    }
}

fn throws_under(p: &Program, method: MethodId, other: MethodId) -> bool
    ensures { result ≡ throws_under p.now (method_at p.now method) (method_at p.now other) }
{
    match p.method(method) {
        None => false,
        Some(m) => throws_under_method(p, m, other),
    }
}

fn throws_least(p: &Program, all: &[MethodId], method: MethodId) -> bool
    ensures { result ≡ throws_least p.now all.now method }
{
    all.iter().all(|other| throws_under(p, method, *other))
}

fn first_preferred(p: &Program, all: &[MethodId]) -> Option<MethodId>
    ensures { result ≡ find (is_preferred p.now all.now) all.now }
{
    all.iter().copied().find(|m| is_preferred(p, all, *m))
}

fn least_preferred(p: &Program, all: &[MethodId]) -> Option<MethodId>
    ensures { result ≡ find (λ m. is_preferred p.now all.now m && throws_least p.now all.now m) all.now }
{
    all.iter()
        .copied()
        .find(|m| is_preferred(p, all, *m) && throws_least(p, all, *m))
}

pub(crate) fn preferred(p: &Program, all: &[MethodId]) -> Option<MethodId>
    ensures { result ≡ preferred p.now all.now }
{
    match least_preferred(p, all) {
        Some(least) => Some(least),
        None => first_preferred(p, all),
    }
}
