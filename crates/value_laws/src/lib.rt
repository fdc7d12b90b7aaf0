//! Which values stand where, by the static type of the place:
//!
//! - In each run of an accepted program no object stands where the static type of a place is no class type, but objects of class `String`.
//! - In each run of an accepted program an object of the class or null stands where the static type of a place is under a class, and so each `throw` throws an exception.
//! - Where exceptions stand that are on their way out of a frame: a frame that ends by an exception has a value of a class in its temp.
#![tactic(auto)]

mod class_value;
mod objects;
mod value_type_runs;
mod values;

pub use class_value::{classes_at_start, classes_step, raised_values_are_exceptions};
pub use objects::{ends_by_exception, thrown_at_start, thrown_step};
pub use value_type_runs::{types_at_start, types_step};
pub use values::{
    argument_is_no_object, field_is_no_object, library_value_is_no_object, made_value_is_no_object,
    result_is_as_named, returned_value_is_no_object,
};
