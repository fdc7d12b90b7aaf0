//! What a signature says, by the number of its method.

ghost use Rattle.std.specs.Prelude.{◌≡◌};
ghost use Rattle.ledger_calls.specs.Calls.{alias_position, interest_in, is_alias, params_in, reset_position};
ghost use Rattle.ledger_calls.specs.Conducts.{first_in, owning_in, result_in};
ghost use Rattle.java_control.specs.Exceptions.{throws_in};
ghost use Rattle.program_model.specs.Lookups.{method_at};

use program_model::{ClassId, MethodId, ParamSig, Program, VType};
use rlc_base::{NameId, NameSet};

pub(crate) fn params_of(p: &Program, method: MethodId) -> &[ParamSig]
    ensures { result.now ≡ params_in (method_at p.now method) }
{
    match p.method(method) {
        None => &[],
        Some(m) => &m.sig.params,
    }
}

pub(crate) fn throws_of(p: &Program, method: MethodId) -> &[ClassId]
    ensures { result.now ≡ throws_in (method_at p.now method) }
{
    match p.method(method) {
        None => &[],
        Some(m) => &m.sig.throws,
    }
}

pub(crate) fn reset_position(p: &Program, method: MethodId) -> Option<u32>
    ensures { result ≡ reset_position (method_at p.now method) }
{
    match p.method(method) {
        None => None,
        Some(m) => m.sig.reset,
    }
}

pub(crate) fn alias_position(p: &Program, method: MethodId) -> Option<u32>
    ensures { result ≡ alias_position (method_at p.now method) }
{
    match p.method(method) {
        None => None,
        Some(m) => m.sig.alias,
    }
}

pub(crate) fn interest_of(p: &Program, method: MethodId) -> Option<NameId>
    ensures { result ≡ interest_in (method_at p.now method) }
{
    match p.method(method) {
        None => None,
        Some(m) => m.sig.interest,
    }
}

/// Whether the result of the method, or the object of a `new`, is an alias.
pub fn is_alias(p: &Program, method: MethodId) -> bool
    ensures { result ≡ is_alias (method_at p.now method) }
{
    alias_position(p, method).is_some()
}

/// The type of the method's result.
pub fn result_of(p: &Program, method: MethodId) -> Option<VType>
    ensures { result ≡ result_in (method_at p.now method) }
{
    match p.method(method) {
        None => None,
        Some(m) => m.sig.result,
    }
}

/// Whether the method's result is owning.
pub fn has_owning_result(p: &Program, method: MethodId) -> bool
    ensures { result ≡ owning_in (method_at p.now method) }
{
    match p.method(method) {
        None => false,
        Some(m) => m.sig.owning_result,
    }
}

pub(crate) fn first_of(p: &Program, method: MethodId) -> Option<NameSet>
    ensures { result ≡ first_in (method_at p.now method) }
{
    match p.method(method) {
        None => None,
        Some(m) => m.sig.first,
    }
}
