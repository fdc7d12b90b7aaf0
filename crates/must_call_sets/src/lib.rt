//! What must be called on the objects of a class, what signatures say, and what makes a program well formed.
#![tactic(auto)]

mod alias_types;
mod bodies;
mod class_sets;
mod signatures;

pub use alias_types::{
    gives_as_alias, has_alias, is_aliased, is_given_as_alias, is_of_type, type_at_some,
};
pub use bodies::{
    alias_position, fields_of, has_field_place, is_alias_constructor, is_constructor,
    is_constructor_kind, is_extended, is_extended_constructor, is_finalizer, method_of,
    resets_this,
};
pub use class_sets::{
    beyond_type, fits, fits_type, is_heavy_as, is_heavy_class, must, must_of_optional, must_of_type,
};
pub use signatures::{
    field_type, is_at, is_must_call_method, is_of_field, is_owning_at, is_position,
    names_promised_at, names_promised_on_field, parameter_at, type_at,
};
