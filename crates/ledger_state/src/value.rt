//! What a place of a frame, a field or an element holds.

ghost use Rattle.std.specs.Prelude.{◌≡◌, length, slice_get, slice_set, replicate, IfOk};
ghost use Rattle.ledger_state.specs.Values.{value_or_nothing};

use rlc_base::NoMemory;
use std::alloc::Global;
use std::marker::Model;

/// A value.
#[derive(Clone, Copy)]
pub enum Value {
    /// No value. It reads as null, 0 or false.
    Nothing,
    Null,
    /// A `String`, of which nothing is kept but that it is not null.
    Text,
    /// A value of a primitive type; of a truth value, true is 1 and false is 0.
    Number(i64),
    /// The class object with this number. Numbers begin at 1, in the order in which objects are made.
    Object(u64),
    /// The array at this place of the list of arrays.
    Array(u64),
}

/// The values of the variables or temps of a frame, or of the elements of an array. Contracts see it as the list of them.
#[derive(Drop)]
pub struct Values {
    items: Vec<Value>,
}

impl Model for Values {
    ghost use Rattle.std.specs.Prelude.{List};
    ghost use Rattle.ledger_state.specs.declared.value.Value.{Value as Item};

    ghost Value = { List Item };

    ghost view = { λ s. s.items.items };
}

impl Values {
    /// These values. It takes no memory.
    pub fn of(items: Vec<Value>) -> Values
        ensures { result ≡ items.items }
    {
        Values { items }
    }

    /// All values, in order.
    pub fn as_slice(&self) -> &[Value]
        ensures { result.now ≡ self.now }
    {
        self.items.as_slice()
    }

    /// How many values there are.
    pub fn len(&self) -> usize
        ensures { result ≡ length self.now }
    {
        self.items.len()
    }

    /// The value at a place, counted from 0; past the end there is none.
    pub fn get(&self, place: u64) -> Value
        ensures { result ≡ value_or_nothing (slice_get self.now place) }
    {
        match self.items.get(place as usize) {
            None => Value::Nothing,
            Some(value) => *value,
        }
    }

    /// Puts a value at a place, where the list has that place.
    pub fn set(&mut self, place: u64, value: Value)
        ensures { self.new ≡ slice_set self.old place value }
    {
        let place = place as usize;
        if place < self.items.len() {
            self.items[place] = value;
        }
    }
}
