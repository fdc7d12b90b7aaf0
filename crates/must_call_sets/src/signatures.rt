//! What a method's signature says of the positions of a call: the receiver at 0, and the k-th declared parameter at k.

ghost use Rattle.std.specs.Prelude.{◌≡◌};
ghost use Rattle.std.specs.Option.{option_copied};
ghost use Rattle.must_call_sets.specs.Signatures.{field_type, has_name, is_at, is_must_call_method, is_of_field, is_owning_at, is_position, parameter_at, promised_names, type_at, when};

use crate::class_sets::must;
use program_model::{ClassId, FieldId, Method, ParamSig, Program, Promise, Sig, Target, VType};
use rlc_base::{NameId, NameSet};

/// Whether the position is that of an optional one.
pub fn is_position(found: Option<u32>, position: u32) -> bool
    ensures { result ≡ is_position found position }
{
    match found {
        None => false,
        Some(k) => k == position,
    }
}

/// The parameter at a position: the receiver at 0, and the k-th declared parameter at k.
pub fn parameter_at(sig: &Sig, position: u32) -> Option<&ParamSig>
    ensures { option_copied result ≡ parameter_at sig.now position }
{
    if position == 0 {
        Some(&sig.receiver)
    } else {
        sig.params.get((position - 1) as usize)
    }
}

/// The declared type of a position.
pub fn type_at(sig: &Sig, position: u32) -> Option<VType>
    ensures { result ≡ type_at sig.now position }
{
    match parameter_at(sig, position) {
        None => None,
        Some(found) => Some(found.vtype),
    }
}

/// Whether an argument at the position moves to the callee.
pub fn is_owning_at(sig: &Sig, position: u32) -> bool
    ensures { result ≡ is_owning_at sig.now position }
{
    match parameter_at(sig, position) {
        None => false,
        Some(found) => found.owning,
    }
}

/// The declared type of a field.
pub fn field_type(p: &Program, field: FieldId) -> Option<VType>
    ensures { result ≡ field_type p.now field }
{
    match p.field(field) {
        None => None,
        Some(found) => Some(found.vtype),
    }
}

fn has_name(names: NameSet, name: Option<NameId>) -> bool
    ensures { result ≡ has_name names name }
{
    match name {
        None => false,
        Some(n) => names.contains(n),
    }
}

/// Whether the method is a must-call method of the class: an instance method without parameters whose name must be called
/// on the class's objects.
pub fn is_must_call_method(p: &Program, class: ClassId, method: &Method) -> bool
    ensures { result ≡ is_must_call_method p.now class method.now }
{
    has_name(must(p, class), method.sig.interest)
}

/// Whether a promise's target is the position.
pub fn is_at(target: Target, position: u32) -> bool
    ensures { result ≡ is_at target position }
{
    match target {
        Target::At(k) => k == position,
        Target::OfField(_) => false,
    }
}

/// Whether a promise's target is the field of `this`.
pub fn is_of_field(target: Target, field: FieldId) -> bool
    ensures { result ≡ is_of_field target field }
{
    match target {
        Target::At(_) => false,
        Target::OfField(found) => found == field,
    }
}

// The names, where the test holds, and else none.
fn when(holds: bool, names: NameSet) -> NameSet
    ensures { result ≡ when holds names }
{
    if holds { names } else { NameSet::empty() }
}

/// All names that promises give to the position.
pub fn names_promised_at(promises: &[Promise], position: u32) -> NameSet
    ensures { result ≡ promised_names (λ t. is_at t position) promises.now }
{
    let mut names = NameSet::empty();
    for promise in promises {
        names = names.union(when(is_at(promise.target, position), promise.names));
    }
    names
}

/// All names that promises give to the field of `this`.
pub fn names_promised_on_field(promises: &[Promise], field: FieldId) -> NameSet
    ensures { result ≡ promised_names (λ t. is_of_field t field) promises.now }
{
    let mut names = NameSet::empty();
    for promise in promises {
        names = names.union(when(is_of_field(promise.target, field), promise.names));
    }
    names
}
