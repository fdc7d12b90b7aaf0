//! Owning fields that are reached through `this`.

ghost use Rattle.std.specs.Prelude.{◌≡◌, length};
ghost use Rattle.control_actions.specs.Owned.{declares_field, field_number, fields_beside, has_place, is_owning, is_this, owning_before, place_of_field};
ghost use Rattle.program_model.specs.Lookups.{field_at};

use crate::place::Place;
use program_model::{Body, ExprId, ExpressionKind, FieldId, Program};

/// Whether `@Owning` stands on the field.
pub fn is_owning(p: &Program, f: FieldId) -> bool
    ensures { result ≡ is_owning p.now f }
{
    match p.field(f) {
        None => false,
        Some(found) => found.owning,
    }
}

fn count_before(p: &Program, f: FieldId, fields: &[FieldId]) -> usize
    ensures { result ≡ length (owning_before p.now f fields.now) }
{
    fields
        .iter()
        .take_while(|g| **g != f)
        .filter(|g| is_owning(p, **g))
        .count()
}

fn count_in_class(p: &Program, f: FieldId) -> usize
    ensures { result ≡ length (owning_before p.now f (fields_beside p.now (field_at p.now f))) }
{
    match p.field(f) {
        None => 0,
        Some(found) => match p.class(found.class) {
            None => 0,
            Some(class) => count_before(p, f, &class.fields),
        },
    }
}

/// The place of an owning field: its number is that of the owning fields that its class declares before it.
pub fn field_place(p: &Program, f: FieldId) -> Place
    ensures { result ≡ place_of_field p.now f }
{
    let number = count_in_class(p, f).min(4294967295);
    Place::Field(number as u32)
}

/// Whether the expression is `this`, written or implied.
pub fn is_this(body: &Body, e: ExprId) -> bool
    ensures { result ≡ is_this body.now e }
{
    match body.expression(e) {
        None => false,
        Some(found) => match &found.kind {
            ExpressionKind::This(_) => true,
            _ => false,
        },
    }
}

/// Whether the body stands in the class that declares the field.
pub fn declares_field(p: &Program, body: &Body, f: FieldId) -> bool
    ensures { result ≡ declares_field p.now body.now f }
{
    match p.method(body.method) {
        None => false,
        Some(method) => match p.field(f) {
            None => false,
            Some(found) => method.class == found.class,
        },
    }
}

/// Whether the field of the value of `e` has a place of its own: it is an owning field of `this`, written or implied, that
/// the body's class declares.
pub fn has_place(p: &Program, body: &Body, e: ExprId, f: FieldId) -> bool
    ensures { result ≡ has_place p.now body.now e f }
{
    is_this(body, e) && is_owning(p, f) && declares_field(p, body, f)
}
