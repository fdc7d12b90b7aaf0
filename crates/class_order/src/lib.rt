//! The classes of a program in class order by their names: two classes of one name, names of super types that mean no class,
//! the classes that the language itself names, and too many classes.
#![tactic(auto)]

mod class_count;
mod core_library;
mod declared;
mod modifiers;
mod names;
mod unknown;

pub use class_count::{MAX_CLASSES, too_many_classes};
pub use core_library::core_classes;
pub use declared::{Declared, class_order, name_of};
pub use modifiers::{has_abstract, has_final, has_private, has_static};
pub use names::index_names;
pub use unknown::{unknown_cases, unknown_name, unknown_names, unknown_supers};
