//! The classes of a program by their names: which class a name means where it stands, and which type is written.
#![tactic(auto)]

mod class_name;
mod doubles;
mod levels;
mod meaning;
mod names;
mod rows;
mod scope;
mod written;

pub use class_name::{ClassName, qualified_name};
pub use levels::meaning_of;
pub use meaning::Meaning;
pub use names::{ClassNames, Indexed};
pub use scope::Scope;
pub use written::written_type;
