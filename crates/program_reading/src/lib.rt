//! The program that the files of a command make: their numbers, their trees, the table of their classes, the types of their bodies,
//! the annotations, and the rules on signatures; or the first refusal in this order.
#![tactic(auto)]

mod reading;
mod typing;

pub use command_trees::{file_names, files_have_their_names};
pub use reading::read_program;
