//! The members of a class or interface by name, as the bodies of a class find them: own and inherited methods, none that
//! is overridden or hidden, constructors and fields.
#![tactic(auto)]

mod bodies;
mod classes;
mod fields;
mod methods;
mod results;
mod signatures;

pub use bodies::{has_body, is_carried};
pub use classes::{is_interface, is_library, super_classes, super_of};
pub use fields::{FieldMember, field_named};
pub use methods::{constructors_of, methods_named};
pub use results::{is_result_under, throws_no_more};
pub use signatures::{are_types, have_one_signature, is_method_kind, is_type};
