//! The state of a run: values, class objects with the ledger of who owns which and what was called on it, what fields hold, arrays,
//! and the values of a frame.
#![tactic(auto)]

mod array;
mod classes;
mod entry;
mod fields;
mod heap;
mod locals;
mod object;
mod stored_fields;
mod value;
mod values;

pub use array::{
    ArrayObject, array_length, array_of, index_of, is_shared, library_array, new_array,
};
pub use classes::{is_instance, runtime_class};
pub use entry::{Entry, LeakWord, Owner};
pub use fields::{field_of, field_value, put_static, static_value};
pub use heap::{Heap, same_root, unfinished};
pub use locals::Locals;
pub use object::{Link, Object, StoredField, StoredStatic};
pub use value::{Value, Values};
pub use values::{default_element, default_of, literal_value};
