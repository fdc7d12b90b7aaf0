//! The heap: the class objects of a run, and what their fields hold.

ghost use Rattle.std.specs.Prelude.{◌≡◌, [], IfOk, OnOk, OnErr};
ghost use Rattle.ledger_state.specs.Heaps.{append, change_one, changed_from, link_of, next_number, object_at, object_in, only_at, put_field, root, root_of, same_root, stored_field, unfinished};

use crate::entry::Owner;
use crate::object::Object;
use crate::stored_fields::{ObjectField, StoredFields};
use crate::value::Value;
use program_model::{ClassId, FieldId};
use rlc_base::{NameSet, NoMemory};
use std::alloc::Global;
use std::marker::Model;

/// The class objects, of which that with number k stands at k - 1, and what their fields hold, where that was stored.
pub struct Heap {
    pub objects: Vec<Object>,
    fields: StoredFields,
}

impl Model for Heap {
    ghost use Rattle.ledger_state.specs.Contents.{HeapContents};
    ghost use Rattle.std.specs.Prelude.{List, refl};
    ghost use Rattle.std.specs.Coded.{code_by, coded×, coded_list};
    ghost use Rattle.ledger_state.specs.declared.object.Object.{Object};
    ghost use Rattle.ledger_state.specs.declared.object.StoredField.{StoredField};
    ghost use Rattle.ledger_state.specs.contracts.object.Object as object_contract;
    ghost use Rattle.ledger_state.specs.contracts.object.StoredField as field_contract;

    ghost Value = { HeapContents };

    ghost coded = { code_by (List Object × List StoredField) (coded× (coded_list object_contract.the_row.coded) (coded_list field_contract.the_row.coded)) (λ h. (h.objects, h.fields)) (λ p. record { objects = p.0; fields = p.1 }) (λ _. refl) };

    ghost view = { λ h. record { objects = h.objects.items; fields = h.fields } };
}

// Written out, so that a function that lets a heap go has one call and not the parts of the index.
impl Drop for Heap {
    fn drop(self) {
        let Heap { objects, fields } = self;
        drop(fields);
        drop(objects);
    }
}

impl Heap {
    /// A heap without objects. It takes no memory yet.
    pub fn new(alloc: Global) -> Heap
        ensures objects { result.objects ≡ [] }
        ensures fields { result.fields ≡ [] }
    {
        Heap {
            objects: Vec::new(alloc),
            fields: StoredFields::new(alloc),
        }
    }

    /// A heap of the same objects and fields.
    pub fn copy(&self, alloc: Global) -> Result<Heap, NoMemory>
        ensures { IfOk result (λ h. h ≡ self.now) }
    {
        let objects = Vec::from_slice(alloc, self.objects.as_slice())?;
        let fields = self.fields.copy()?;
        Ok(Heap { objects, fields })
    }

    /// The object with this number; numbers begin at 1.
    pub fn object(&self, number: u64) -> Option<Object>
        ensures { result ≡ object_at self.now number }
    {
        object_in(&self.objects, number)
    }

    /// The number of the object that is made next.
    pub fn next_number(&self) -> u64
        ensures { result ≡ next_number self.now }
    {
        self.objects.len() as u64 + 1
    }

    /// Makes an object of the class, which is not finished. Where memory runs out the heap stays as it was.
    pub fn append(&mut self, class: ClassId) -> Result<(), NoMemory>
        ensures ok { OnOk result (self.new ≡ append self.old class) }
        ensures err { OnErr result (self.new ≡ self.old) }
    {
        self.objects.push(unfinished(class))?;
        Ok(())
    }

    /// Puts an object in the place of that with this number, where there is one.
    pub fn put(&mut self, number: u64, object: Object)
        ensures { self.new ≡ change_one number (λ _. object) self.old }
    {
        put_object(&mut self.objects, number, object);
    }

    /// The object at the end of the links from the object with this number.
    pub fn root(&self, number: u64) -> u64
        ensures { result ≡ root self.now number }
    {
        let mut at = number;
        'links: for _ in 0..self.objects.len() {
            match self.linked(at) {
                None => return at,
                Some(to) => at = to,
            }
        }
        at
    }

    fn linked(&self, number: u64) -> Option<u64>
        ensures { result ≡ link_of (object_at self.now number) }
    {
        match self.object(number) {
            None => None,
            Some(object) => match object.link {
                None => None,
                Some(link) => Some(link.to),
            },
        }
    }

    /// The root of what a place holds, where that is a class object.
    pub fn root_of(&self, value: Value) -> Option<u64>
        ensures { result ≡ root_of self.now value }
    {
        match value {
            Value::Object(number) => Some(self.root(number)),
            _ => None,
        }
    }

    /// The value of the field of the object with number `holder`, where it was stored.
    pub fn stored_field(&self, holder: u64, field: FieldId) -> Option<Value>
        ensures { result ≡ stored_field self.now holder field }
    {
        self.fields.value(ObjectField { holder, field })
    }

    /// Puts a value into the field of the object with number `holder`. Where memory runs out the heap stays as it was.
    pub fn put_field(&mut self, holder: u64, field: FieldId, value: Value) -> Result<(), NoMemory>
        ensures ok { OnOk result (self.new ≡ put_field holder field value self.old) }
        ensures err { OnErr result (self.new ≡ self.old) }
    {
        self.fields.put(ObjectField { holder, field }, value)
    }
}

fn object_in(objects: &[Object], number: u64) -> Option<Object>
    ensures { result ≡ object_in objects.now number }
{
    if number == 0 {
        return None;
    }
    objects.get((number - 1) as usize).copied()
}

fn put_object(objects: &mut [Object], number: u64, object: Object)
    ensures { objects.new ≡ changed_from 1 (only_at number (λ _. object)) objects.old }
{
    if number == 0 {
        return;
    }
    let place = (number - 1) as usize;
    if place < objects.len() {
        objects[place] = object;
    }
}

/// An object as it is made, before it is finished.
pub fn unfinished(class: ClassId) -> Object
    ensures { result ≡ unfinished class }
{
    Object {
        class,
        link: None,
        finished: false,
        must: NameSet::empty(),
        called: NameSet::empty(),
        owner: Owner::Unowned,
    }
}

/// Whether both are the same root.
pub fn same_root(a: Option<u64>, b: Option<u64>) -> bool
    ensures { result ≡ same_root a b }
{
    match (a, b) {
        (Some(a), Some(b)) => a == b,
        _ => false,
    }
}
