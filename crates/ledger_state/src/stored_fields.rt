//! What the fields of objects hold, with an index by object and field.

ghost use Rattle.std.specs.Prelude.{◌≡◌, [], find, IfOk, OnOk, OnErr};
ghost use Rattle.std.specs.List.{position_from};
ghost use Rattle.ledger_state.specs.Heaps.{is_field_of, put_at, stored, value_stored};
ghost use Rattle.ledger_state.specs.StoredFields.{fields_of};

use crate::value::Value;
use indexmap::IndexMap;
use program_model::FieldId;
use rlc_base::NoMemory;
use std::alloc::Global;
use std::marker::Model;

/// A field of an object.
#[derive(Clone, Copy, PartialEq, Eq, Hash)]
pub struct ObjectField {
    /// The number of the object.
    pub holder: u64,
    pub field: FieldId,
}

/// What the fields of objects hold, where that was stored. Contracts see it as the list of that, in the order of the first
/// stores.
#[derive(Drop)]
pub struct StoredFields {
    values: IndexMap<ObjectField, Value>,
}

impl Model for StoredFields {
    ghost use Rattle.std.specs.Prelude.{List};
    ghost use Rattle.ledger_state.specs.declared.object.StoredField.{StoredField};
    ghost use Rattle.ledger_state.specs.StoredFields.{fields_of};

    ghost Value = { List StoredField };

    ghost view = { λ s. fields_of s.values.entries };
}

impl StoredFields {
    /// No field was stored. It takes no memory yet.
    pub fn new(alloc: Global) -> StoredFields
        ensures { result ≡ [] }
    {
        StoredFields {
            values: IndexMap::new(alloc),
        }
    }

    /// The same fields with the same values.
    pub fn copy(&self) -> Result<StoredFields, NoMemory>
        ensures { IfOk result (λ fields. fields ≡ self.now) }
    {
        let values = same_values(&self.values)?;
        Ok(StoredFields { values })
    }

    /// What the field holds, where that was stored.
    pub fn value(&self, place: ObjectField) -> Option<Value>
        ensures { result ≡ value_stored (find (is_field_of place.holder place.field) self.now) }
    {
        value_at(&self.values, place)
    }

    /// Puts a value into the field. Where memory runs out the fields stay as they were.
    pub fn put(&mut self, place: ObjectField, value: Value) -> Result<(), NoMemory>
        ensures ok { OnOk result (self.new ≡ put_at (position_from (is_field_of place.holder place.field) 0 self.old) (stored place.holder place.field value) self.old) }
        ensures err { OnErr result (self.new ≡ self.old) }
    {
        put_value(&mut self.values, place, value)
    }
}

#[tactic(auto, using(crate::proofs::FieldLemmas::same_entries))]
fn same_values(
    values: &IndexMap<ObjectField, Value>,
) -> Result<IndexMap<ObjectField, Value>, NoMemory>
    ensures { IfOk result (λ m. m.entries ≡ values.now.entries) }
{
    Ok(values.clone()?)
}

#[tactic(auto, using(crate::proofs::FieldLemmas::value_found))]
fn value_at(values: &IndexMap<ObjectField, Value>, place: ObjectField) -> Option<Value>
    ensures { result ≡ value_stored (find (is_field_of place.holder place.field) (fields_of values.now.entries)) }
{
    values.get(&place).copied()
}

#[tactic(auto, using(crate::proofs::FieldLemmas::value_put))]
fn put_value(
    values: &mut IndexMap<ObjectField, Value>,
    place: ObjectField,
    value: Value,
) -> Result<(), NoMemory>
    ensures ok { OnOk result (fields_of values.new.entries ≡ put_at (position_from (is_field_of place.holder place.field) 0 (fields_of values.old.entries)) (stored place.holder place.field value) (fields_of values.old.entries)) }
    ensures err { OnErr result (fields_of values.new.entries ≡ fields_of values.old.entries) }
{
    values.insert(place, value)?;
    Ok(())
}
