//! The arrays of a run.

ghost use Rattle.std.specs.Prelude.{◌≡◌, IfOk};
ghost use Rattle.std.specs.Option.{option_copied};
ghost use Rattle.ledger_state.specs.Classes.{array_length, array_of, index_of, is_shared, library_array, new_array};

use crate::value::{Value, Values};
use crate::values::default_element;
use program_model::ElementType;
use rlc_base::NoMemory;
use std::alloc::Global;

/// An array. Once the library has had it in its hands, it is shared: each read of an element is the library's choice, and
/// writes are not kept.
#[derive(Drop)]
pub struct ArrayObject {
    pub element: ElementType,
    /// A number of type `int`, 0 at least.
    pub length: i64,
    /// As many as the length says; none for an array that the library made.
    pub elements: Values,
    pub shared: bool,
}

/// The place of an element, from 0, and a number of elements: a number below 0 stands for 0.
pub fn index_of(number: i64) -> u64
    ensures { result ≡ index_of number }
{
    if number < 0 {
        0
    } else {
        number.cast_unsigned()
    }
}

/// An array of this length whose elements begin with the default value (JLS 15.10.2); the length is 0 at least.
pub fn new_array(alloc: Global, element: ElementType, length: i64) -> Result<ArrayObject, NoMemory>
    ensures { IfOk result (λ a. a ≡ new_array element length) }
{
    let mut elements = Vec::new(alloc);
    elements.resize(index_of(length) as usize, default_element(element))?;
    Ok(ArrayObject {
        element,
        length,
        elements: Values::of(elements),
        shared: false,
    })
}

/// An array that the library made. It takes no memory.
pub fn library_array(alloc: Global, element: ElementType, length: i64) -> ArrayObject
    ensures { result ≡ library_array element length }
{
    ArrayObject {
        element,
        length,
        elements: Values::of(Vec::new(alloc)),
        shared: true,
    }
}

/// The array that the value is.
pub fn array_of(arrays: &[ArrayObject], value: Value) -> Option<&ArrayObject>
    ensures { option_copied result ≡ array_of arrays.now value }
{
    match value {
        Value::Array(place) => arrays.get(place as usize),
        _ => None,
    }
}

/// The length of the array that the value is, and 0 where it is none.
pub fn array_length(arrays: &[ArrayObject], value: Value) -> i64
    ensures { result ≡ array_length arrays.now value }
{
    match array_of(arrays, value) {
        None => 0,
        Some(array) => array.length,
    }
}

/// Whether the library has had the array in its hands.
pub fn is_shared(arrays: &[ArrayObject], array: Value) -> bool
    ensures { result ≡ is_shared arrays.now array }
{
    match array_of(arrays, array) {
        None => false,
        Some(array) => array.shared,
    }
}
