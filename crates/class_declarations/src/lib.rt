//! The members of classes as they are written: fields, methods, constructors, the constructor of a class that declares none,
//! and the constants of stubs.
#![tactic(auto)]

mod fields;
mod method_tree;
mod methods;

pub use fields::{DeclaredField, all_fields};
pub use method_tree::MethodTree;
pub use methods::{DeclaredMethod, all_methods, is_class_type, is_constant, written_in};
