//! The typed bodies of a program's methods and constructors, or the least refusal of its members and bodies.
#![tactic(auto)]

mod body_typings;
mod class_typings;
mod member_cases;
mod refusals;

pub use body_typings::BodyTyping;
pub use class_typings::program_typing;
pub use refusals::least;
