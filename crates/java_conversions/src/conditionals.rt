//! The type of a conditional expression that no context gives a type (JLS 15.25).

ghost use Rattle.std.specs.Prelude.{◌≡◌};
ghost use Rattle.std.specs.List.{find, list_any};
ghost use Rattle.std.specs.Option.{option_copied};
ghost use Rattle.java_conversions.specs.Conditionals.{are_same_arrays, is_minimal, is_minimal_class, is_int, is_narrowed, is_nearer, is_reference_conditional, is_same_number, is_shared, least_among, least_class, least_of_two, least_upper_bound, numeric_conditional, reference_of, standalone_conditional};

use crate::casts::is_interface;
use crate::operators::{binary_promoted, number_result};
use crate::types::{
    BOOLEAN, class_of, is_boolean, is_null_type, is_reference, is_same_element, is_same_primitive,
    type_of_class,
};
use crate::widening::is_narrow_value;
use program_model::{ClassId, Primitive, Program, VType, under};

fn is_shared(p: &Program, a: ClassId, b: ClassId, class: ClassId) -> bool
    ensures { result ≡ is_shared p.now a b class }
{
    under(p, a, class) && under(p, b, class)
}

fn is_nearer(p: &Program, a: ClassId, b: ClassId, class: ClassId, other: ClassId) -> bool
    ensures { result ≡ is_nearer p.now a b class other }
{
    is_shared(p, a, b, other) && under(p, other, class) && other.0 != class.0
}

fn has_nearer(p: &Program, a: ClassId, b: ClassId, class: ClassId, above: &[ClassId]) -> bool
    ensures { result ≡ list_any (λ d. is_nearer p.now a b class d) above.now }
{
    above.iter().any(|d| is_nearer(p, a, b, class, *d))
}

fn is_minimal(p: &Program, a: ClassId, b: ClassId, above: &[ClassId], class: ClassId) -> bool
    ensures { result ≡ is_minimal p.now a b above.now class }
{
    is_shared(p, a, b, class) && !has_nearer(p, a, b, class, above)
}

fn is_minimal_class(p: &Program, a: ClassId, b: ClassId, above: &[ClassId], class: ClassId) -> bool
    ensures { result ≡ is_minimal_class p.now a b above.now class }
{
    !is_interface(p, class) && is_minimal(p, a, b, above, class)
}

fn first_minimal_class(p: &Program, a: ClassId, b: ClassId, above: &[ClassId]) -> Option<ClassId>
    ensures { result ≡ find (λ c. is_minimal_class p.now a b above.now c) above.now }
{
    above
        .iter()
        .copied()
        .find(|c| is_minimal_class(p, a, b, above, *c))
}

fn first_minimal(p: &Program, a: ClassId, b: ClassId, above: &[ClassId]) -> Option<ClassId>
    ensures { result ≡ find (λ c. is_minimal p.now a b above.now c) above.now }
{
    above
        .iter()
        .copied()
        .find(|c| is_minimal(p, a, b, above, *c))
}

fn least_among(p: &Program, a: ClassId, b: ClassId, above: &[ClassId]) -> Option<ClassId>
    ensures { result ≡ least_among p.now a b above.now }
{
    match first_minimal_class(p, a, b, above) {
        Some(class) => Some(class),
        None => first_minimal(p, a, b, above),
    }
}

fn least_class(p: &Program, a: ClassId, b: ClassId) -> Option<ClassId>
    ensures { result ≡ least_class p.now a b }
{
    match p.class(a) {
        None => least_among(p, a, b, &[a]),
        Some(found) => least_among(p, a, b, &found.above),
    }
}

fn are_same_arrays(a: VType, b: VType) -> bool
    ensures { result ≡ are_same_arrays a b }
{
    match a {
        VType::Arr(a) => match b {
            VType::Arr(b) => is_same_element(a, b),
            _ => false,
        },
        _ => false,
    }
}

fn least_of_two(p: &Program, a: VType, b: VType) -> Option<VType>
    ensures { result ≡ least_of_two p.now a b }
{
    if are_same_arrays(a, b) {
        Some(a)
    } else {
        let left = class_of(p, a)?;
        let right = class_of(p, b)?;
        let class = least_class(p, left, right)?;
        Some(type_of_class(p, class))
    }
}

/// The least upper bound of two reference types (JLS 4.10.4), or the other one where one is the type of `null`. Where it
/// is an intersection its class stands for it, else its first interface in class order. None where one is primitive.
pub fn least_upper_bound(p: &Program, a: VType, b: VType) -> Option<VType>
    ensures { result ≡ least_upper_bound p.now a b }
{
    if is_null_type(a) {
        reference_of(b)
    } else if is_null_type(b) {
        reference_of(a)
    } else {
        least_of_two(p, a, b)
    }
}

fn reference_of(t: VType) -> Option<VType>
    ensures { result ≡ reference_of t }
{
    if is_reference(t) { Some(t) } else { None }
}

/// Whether a conditional expression with operands of these types takes the type of the context that it stands in, where
/// that is one of assignment or invocation (JLS 15.25): both are references. Each operand must then suit that type.
pub fn is_reference_conditional(a: VType, b: VType) -> bool
    ensures { result ≡ is_reference_conditional a b }
{
    is_reference(a) && is_reference(b)
}

fn is_int(t: VType) -> bool
    ensures { result ≡ is_int t }
{
    matches!(t, VType::Primitive(Primitive::Int))
}

fn is_narrowed(constant: Option<i64>, from: VType, to: VType) -> bool
    ensures { result ≡ is_narrowed constant from to }
{
    match constant {
        None => false,
        Some(value) => is_int(from) && is_narrow_value(value, to),
    }
}

fn is_same_number(a: VType, b: VType) -> bool
    ensures { result ≡ is_same_number a b }
{
    match a {
        VType::Primitive(a) => match b {
            VType::Primitive(b) => is_same_primitive(a, b),
            _ => false,
        },
        _ => false,
    }
}

fn numeric_conditional(m: Option<i64>, a: VType, n: Option<i64>, b: VType) -> Option<VType>
    ensures { result ≡ numeric_conditional m a n b }
{
    if is_same_number(a, b) {
        Some(a)
    } else if is_narrowed(n, b, a) {
        Some(a)
    } else if is_narrowed(m, a, b) {
        Some(b)
    } else {
        number_result(binary_promoted(a, b)?)
    }
}

/// The type of `c ? a : b`, for the operands' types and, where they are constant, their values `m` and `n`
/// (JLS 15.25.1 to 15.25.3): for two references their least upper bound, which holds where no context gives the type. None
/// where they have no type together in the subset, which has no boxing.
pub fn standalone_conditional(
    p: &Program,
    m: Option<i64>,
    a: VType,
    n: Option<i64>,
    b: VType,
) -> Option<VType>
    ensures { result ≡ standalone_conditional p.now m a n b }
{
    if is_boolean(a) && is_boolean(b) {
        Some(BOOLEAN)
    } else if is_reference_conditional(a, b) {
        least_upper_bound(p, a, b)
    } else {
        numeric_conditional(m, a, n, b)
    }
}
