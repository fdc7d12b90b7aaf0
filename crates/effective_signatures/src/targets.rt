//! What the texts of promises and resets name.

ghost use Rattle.std.specs.Prelude.{◌≡◌, ◌<◌, ◌^◌, nat_eq, slice_get};
ghost use Rattle.std.specs.List.{starts_with};
ghost use Rattle.effective_signatures.specs.Targets.{field_name, has_object, is_owning_named, is_position_text, keeps_object, next_digit, number_up_to, owning_field, own_fields, position_of, target_of};
ghost use Rattle.std.specs.Option.{option_copied};

use annotation_kinds::is_decimal;
use program_model::{Class, ClassId, Field, FieldId, MethodKind, Target};

// The number with one digit more.
fn next_digit(value: u64, digit: u8) -> u64
    requires { value < 2 ^ 32 }
    ensures { result ≡ next_digit value digit }
{
    10 * value + u64::from(digit.saturating_sub(b'0'))
}

// The number, where it is one of `count` parameters.
fn number_up_to(count: u32, digits: &[u8]) -> Option<u32>
    ensures { result ≡ number_up_to count digits.now }
{
    if !is_decimal(digits) {
        return None;
    }
    let mut value: u64 = 0;
    for digit in digits {
        value = next_digit(value, *digit);
        if value > u64::from(count) {
            return None;
        }
    }
    Some(value as u32)
}

// Whether the text begins so.
fn begins(text: &[u8], front: &[u8]) -> bool
    ensures { result ≡ starts_with nat_eq text.now front.now }
{
    text.starts_with(front)
}

// Whether the text names a position, and no field.
fn is_position_text(text: &[u8]) -> bool
    ensures { result ≡ is_position_text text.now }
{
    text == b"this".as_slice() || begins(text, b"#")
}

/// The position that a text names: the receiver at 0, where there is an object, and the k-th of `count` parameters at k.
pub fn position_of(with_object: bool, count: u32, text: &[u8]) -> Option<u32>
    ensures { result ≡ position_of with_object count text.now }
{
    if begins(text, b"#") {
        number_up_to(count, &text[1..])
    } else if with_object && text == b"this".as_slice() {
        Some(0)
    } else {
        None
    }
}

// Whether this is an owning instance field of the name.
fn is_owning_named(name: &[u8], field: Option<&Field>) -> bool
    ensures { result ≡ is_owning_named name.now (option_copied field.entry) }
{
    match field {
        None => false,
        Some(field) => field.owning && (!field.is_static && field.name.bytes() == name),
    }
}

// Whether the field at this number is an owning instance field of the name.
fn is_owning_at(fields: &[Field], name: &[u8], field: FieldId) -> bool
    ensures { result ≡ is_owning_named name.now (slice_get fields.now field.0) }
{
    is_owning_named(name, fields.get(field.0 as usize))
}

// The owning instance field of the name, among those that a class declares.
fn owning_field<'a>(fields: &[Field], own: &'a [FieldId], name: &[u8]) -> Option<&'a FieldId>
    ensures { option_copied result ≡ owning_field fields.now own.now name.now }
{
    own.iter().find(|field| is_owning_at(fields, name, **field))
}

// The name of the field that a text names.
fn field_name(text: &[u8]) -> &[u8]
    ensures { result.now ≡ field_name text.now }
{
    if begins(text, b"this.") {
        &text[5..]
    } else {
        text
    }
}

/// What a text of a promise names, where there is an object, or none: `this`, a parameter, or an owning field of the class
/// that declares the fields `own`.
pub fn target_of(
    with_object: bool,
    count: u32,
    fields: &[Field],
    own: &[FieldId],
    text: &[u8],
) -> Option<Target>
    ensures { result ≡ target_of with_object count fields.now own.now text.now }
{
    if is_position_text(text) {
        match position_of(with_object, count, text) {
            None => None,
            Some(position) => Some(Target::At(position)),
        }
    } else if with_object {
        match owning_field(fields, own, field_name(text)) {
            None => None,
            Some(field) => Some(Target::OfField(*field)),
        }
    } else {
        None
    }
}

/// The fields that a class declares.
pub fn own_fields(classes: &[Class], class: ClassId) -> &[FieldId]
    ensures { result.now ≡ own_fields classes.now class }
{
    match classes.get(class.0 as usize) {
        None => &[],
        Some(found) => &found.fields,
    }
}

/// Whether a promise or a reset of such a method may name its object, when the call ends normally.
pub fn has_object(kind: MethodKind) -> bool
    ensures { result ≡ has_object kind }
{
    match kind {
        MethodKind::Instance | MethodKind::Ctor => true,
        MethodKind::Static | MethodKind::Constant => false,
    }
}

/// Whether a promise of such a method may name its object, when the call ends by an exception: a constructor has then made
/// none.
pub fn keeps_object(kind: MethodKind) -> bool
    ensures { result ≡ keeps_object kind }
{
    match kind {
        MethodKind::Instance => true,
        MethodKind::Static | MethodKind::Ctor | MethodKind::Constant => false,
    }
}
