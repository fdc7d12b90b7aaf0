//! What holds of the program that is elaborated from files in which nothing is refused:
//!
//! - What holds of the table of classes that the typing of bodies asks for.
//! - In the bodies of an elaborated program statements and variables stand in the order of the text: a constructor begins with its super
//!   call and the initialisers of fields (JLS 8.8.7, 12.5), jumps stand in loops (JLS 14.15, 14.16), variables are numbered as they are
//!   declared (JLS 14.4), and each body is that of the method which the table has of it.
//! - The program of a built table and of source files in which nothing is refused is typed and valid (JLS 8, 14, 15).
#![tactic(auto)]

mod body_orders;
mod body_typing;
mod declarable_types;
mod elaborated_programs;
mod laid_bodies;
mod laid_orders;
mod laws;
mod source_bodies;
mod statement_orders;
mod string_class;
mod typed_programs;
mod validity;
mod variable_orders;

pub use body_orders::accepted_body_is_ordered;
pub use body_typing::{accepted_body_has_its_variables, accepted_body_is_typed};
pub use declarable_types::named_table_has_declarable_types;
pub use elaborated_programs::elaborated_program_is_typed;
pub use laid_bodies::accepted_body_is_typed_body;
pub use laid_orders::{
    laid_heads_come_first, laid_initializers_assign, laid_jumps_are_in_loops,
    laid_super_call_comes_first, laid_super_call_is_due, parts_are_no_heads,
};
pub use laws::{names_are_those_of_the_table, no_source_class_is_string, string_is_of_the_library};
pub use source_bodies::{
    methods_have_source_bodies, source_bodies_are_of_distinct_methods, source_bodies_are_run,
    source_bodies_have_their_methods,
};
pub use statement_orders::elaborated_bodies_are_ordered;
pub use string_class::{built_table_has_final_string, no_source_body_is_of_string};
pub use typed_programs::program_with_bodies_is_typed;
pub use validity::{elaborated_program_has_bodies, elaborated_program_is_valid};
pub use variable_orders::{elaborated_bodies_are_in_order, laid_variables_are_declared};
