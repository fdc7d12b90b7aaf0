//! What the fields of objects and the static fields hold.

ghost use Rattle.std.specs.Prelude.{◌≡◌, ◌<◌, ◌≤◌, find, length, IfSome, OnOk, OnErr, vec_capacity, vec_len};
ghost use Rattle.std.specs.List.{position_from};
ghost use Rattle.ledger_state.specs.Fields.{default_in, field_of, field_value, initial_in, initial_of, is_static, put_static, static_value, stored_static};
ghost use Rattle.program_model.specs.Lookups.{field_at};

use crate::heap::Heap;
use crate::object::StoredStatic;
use crate::value::Value;
use crate::values::{default_of, literal_value};
use program_model::{FieldId, Literal, Program, VType};
use rlc_base::NoMemory;

fn default_in(p: &Program, f: FieldId) -> Value
    ensures { result ≡ default_in (field_at p.now f) }
{
    match p.field(f) {
        None => Value::Nothing,
        Some(field) => default_of(field.vtype),
    }
}

/// What the field of the object with number `holder` holds.
pub fn field_value(p: &Program, heap: &Heap, holder: u64, f: FieldId) -> Value
    ensures { result ≡ field_value p.now heap.now holder f }
{
    match heap.stored_field(holder, f) {
        None => default_in(p, f),
        Some(value) => value,
    }
}

/// What the field of the object that the value is holds; nothing where it is no class object.
pub fn field_of(p: &Program, heap: &Heap, value: Value, f: FieldId) -> Value
    ensures { result ≡ field_of p.now heap.now value f }
{
    match value {
        Value::Object(holder) => field_value(p, heap, holder, f),
        _ => Value::Nothing,
    }
}

fn is_static(stored: StoredStatic, f: FieldId) -> bool
    ensures { result ≡ is_static f stored }
{
    stored.field == f
}

fn static_found(statics: &[StoredStatic], f: FieldId) -> Option<StoredStatic>
    ensures { result ≡ find (is_static f) statics.now }
{
    statics.iter().copied().find(|stored| is_static(*stored, f))
}

fn static_place(statics: &[StoredStatic], f: FieldId) -> Option<usize>
    ensures place { result ≡ position_from (is_static f) 0 statics.now }
    ensures within { IfSome result (λ i. i < length statics.now) }
{
    statics.iter().position(|stored| is_static(*stored, f))
}

fn stored_static(statics: &[StoredStatic], f: FieldId) -> Option<Value>
    ensures { result ≡ stored_static statics.now f }
{
    match static_found(statics, f) {
        None => None,
        Some(stored) => Some(stored.value),
    }
}

/// Puts a value into a static field. Where memory runs out the fields stay as they were; it cannot where the list has room for
/// one more.
pub fn put_static(statics: &mut Vec<StoredStatic>, f: FieldId, value: Value) -> Result<(), NoMemory>
    ensures ok { OnOk result (statics.new.items ≡ put_static f value statics.old.items) }
    ensures err { OnErr result (statics.new.items ≡ statics.old.items) }
    ensures full { OnErr result (vec_capacity statics.old ≤ vec_len statics.old) }
{
    let stored = StoredStatic { field: f, value };
    match static_place(statics, f) {
        None => {
            statics.push(stored)?;
            Ok(())
        }
        Some(place) => {
            statics[place] = stored;
            Ok(())
        }
    }
}

fn initial_of(vtype: VType, initial: Option<Literal>) -> Value
    ensures { result ≡ initial_of vtype initial }
{
    match initial {
        None => default_of(vtype),
        Some(literal) => literal_value(literal),
    }
}

fn initial_in(p: &Program, f: FieldId) -> Value
    ensures { result ≡ initial_in (field_at p.now f) }
{
    match p.field(f) {
        None => Value::Nothing,
        Some(field) => initial_of(field.vtype, field.initial),
    }
}

/// What the static field holds: before its first store its initial value (JLS 8.3.2).
pub fn static_value(p: &Program, statics: &[StoredStatic], f: FieldId) -> Value
    ensures { result ≡ static_value p.now statics.now f }
{
    match stored_static(statics, f) {
        None => initial_in(p, f),
        Some(value) => value,
    }
}
