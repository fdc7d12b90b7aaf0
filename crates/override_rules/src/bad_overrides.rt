//! Which overrides are refused: what a caller sees of the overridden signature must hold of the one that runs.

ghost use Rattle.std.specs.Prelude.{◌≡◌};
ghost use Rattle.std.specs.List.{list_all};
ghost use Rattle.must_call_sets.specs.OverrideCases.{asks_for_more, differ, has_other_owning, has_other_result, has_wider_result, is_bad_override, is_field_target, is_one_of, keeps, keeps_at, overrides_first_set, promises_beside_set, promises_less, promises_on_field};

use class_overrides::is_library;
use must_call_sets::{must, must_of_optional, names_promised_at};
use program_model::{Method, ParamSig, Program, Promise, Sig, Target};
use rlc_base::{NameSet, Text};

fn differ(mark: bool, other: bool) -> bool
    ensures { result ≡ differ mark other }
{
    if mark { !other } else { other }
}

fn has_other_owning(params: &[ParamSig], others: &[ParamSig]) -> bool
    ensures { result ≡ has_other_owning params.now others.now }
{
    params
        .iter()
        .zip(others)
        .any(|x| differ(x.0.owning, x.1.owning))
}

fn has_other_result(sig: &Sig, other: &Sig) -> bool
    ensures { result ≡ has_other_result sig.now other.now }
{
    sig.result.is_some() && differ(sig.owning_result, other.owning_result)
}

fn keeps_at(promises: &[Promise], target: Target, names: NameSet) -> bool
    ensures { result ≡ keeps_at promises.now target names }
{
    match target {
        Target::At(position) => names.is_subset(names_promised_at(promises, position)),
        Target::OfField(_) => true,
    }
}

fn keeps_all(promises: &[Promise], others: &[Promise]) -> bool
    ensures { result ≡ list_all (keeps promises.now) others.now }
{
    let mut kept = true;
    for other in others {
        kept &= keeps_at(promises, other.target, other.names);
    }
    kept
}

fn promises_less(promises: &[Promise], others: &[Promise]) -> bool
    ensures { result ≡ promises_less promises.now others.now }
{
    !keeps_all(promises, others)
}

fn asks_for_more(params: &[ParamSig], others: &[ParamSig]) -> bool
    ensures { result ≡ asks_for_more params.now others.now }
{
    params
        .iter()
        .zip(others)
        .any(|x| !x.0.before.is_subset(x.1.before))
}

fn is_field_target(target: Target) -> bool
    ensures { result ≡ is_field_target target }
{
    match target {
        Target::At(_) => false,
        Target::OfField(_) => true,
    }
}

fn promises_on_field(promises: &[Promise]) -> bool
    ensures { result ≡ promises_on_field promises.now }
{
    promises
        .iter()
        .any(|promise| is_field_target(promise.target))
}

fn is_one_of(p: &Program, names: NameSet, name: &Text) -> bool
    ensures { result ≡ is_one_of p.now names name.now }
{
    match p.names.find(name.bytes()) {
        None => false,
        Some(number) => names.contains(number),
    }
}

// The method promises on an owning field, and its name is not in the must-call set of its class.
fn promises_beside_set(p: &Program, method: &Method) -> bool
    ensures { result ≡ promises_beside_set p.now method.now }
{
    promises_on_field(&method.sig.promises) && !is_one_of(p, must(p, method.class), &method.name)
}

fn has_wider_result(p: &Program, sig: &Sig, other: &Sig) -> bool
    ensures { result ≡ has_wider_result p.now sig.now other.now }
{
    sig.owning_result
        && !must_of_optional(p, sig.result).is_subset(must_of_optional(p, other.result))
}

fn overrides_first_set(p: &Program, by: &Method, overridden: &Method) -> bool
    ensures { result ≡ overrides_first_set p.now by.now overridden.now }
{
    !is_library(p, by.class) && overridden.sig.first.is_some()
}

// What a caller sees of the overridden signature does not hold of the overriding method.
pub(crate) fn is_bad_override(p: &Program, by: &Method, overridden: &Method) -> bool
    ensures { result ≡ is_bad_override p.now by.now overridden.now }
{
    has_other_owning(&by.sig.params, &overridden.sig.params)
        || has_other_result(&by.sig, &overridden.sig)
        || promises_less(&by.sig.promises, &overridden.sig.promises)
        || promises_less(&by.sig.on_throw, &overridden.sig.on_throw)
        || asks_for_more(&by.sig.params, &overridden.sig.params)
        || promises_beside_set(p, overridden)
        || promises_on_field(&overridden.sig.on_throw)
        || has_wider_result(p, &by.sig, &overridden.sig)
        || overrides_first_set(p, by, overridden)
}
