//! What the places of a frame hold.

ghost use Rattle.std.specs.Prelude.{◌≡◌, filter, slice_get};
ghost use Rattle.control_actions.specs.Owned.{is_owning};
ghost use Rattle.ledger_operations.specs.Places.{field_place_value, owning_field_beside, place_value};

use control_actions::Place;
use ledger_state::{Heap, Locals, Value, field_of};
use program_model::{FieldId, MethodId, Program};

fn is_owning(p: &Program, f: FieldId) -> bool
    ensures { result ≡ is_owning p.now f }
{
    match p.field(f) {
        None => false,
        Some(field) => field.owning,
    }
}

fn owning_among(p: &Program, fields: &[FieldId], place: u32) -> Option<FieldId>
    ensures { result ≡ slice_get (filter (is_owning p.now) fields.now) place }
{
    let mut left = place;
    'fields: for field in fields {
        if is_owning(p, *field) {
            if left == 0 {
                return Some(*field);
            }
            left -= 1;
        }
    }
    None
}

fn owning_field_beside(p: &Program, m: MethodId, place: u32) -> Option<FieldId>
    ensures { result ≡ owning_field_beside p.now m place }
{
    match p.method(m) {
        None => None,
        Some(method) => match p.class(method.class) {
            None => None,
            Some(class) => owning_among(p, &class.fields, place),
        },
    }
}

fn field_place_value(p: &Program, heap: &Heap, this: Value, f: Option<FieldId>) -> Value
    ensures { result ≡ field_place_value p.now heap.now this f }
{
    match f {
        None => Value::Nothing,
        Some(f) => field_of(p, heap, this, f),
    }
}

/// What the place of a frame of the method holds. An owning field of `this` stands in the heap.
pub fn place_value(p: &Program, heap: &Heap, m: MethodId, locals: &Locals, place: Place) -> Value
    ensures { result ≡ place_value p.now heap.now m locals.now place }
{
    match place {
        Place::Var(number) => locals.variable(u64::from(number)),
        Place::This => locals.this,
        Place::Field(k) => field_place_value(p, heap, locals.this, owning_field_beside(p, m, k)),
        Place::Temp(depth) => locals.temp(u64::from(depth)),
        Place::Super => Value::Nothing,
    }
}
