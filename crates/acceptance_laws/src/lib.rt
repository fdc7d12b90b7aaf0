//! Which programs of files are accepted, and what that rests on:
//!
//! - Overriding depends neither on the annotations of a program nor on its bodies.
//! - No class of the program of files declares two methods of one name and one parameter list.
//! - Laws of the faults of a program: their number is one, and so is the stop of a program whose faults are not told; the paths of a
//!   program with a number of faults stay within the limits on places.
//! - What is laid from typed statements and expressions in which nothing is refused throws no checked exception that is neither caught nor
//!   declared (JLS 11.2): bodies that are laid in tables, elaborated programs, and so the program of files.
//! - Which programs of files are accepted.
#![tactic(auto)]

mod acceptance;
mod checked_exception;
mod distinct_method;
mod overriding;
mod program_fault;

pub use acceptance::{accepted_program_has_no_fault, counted_program_is_accepted};
pub use checked_exception::{
    elaborated_program_covers_its_exceptions, read_program_covers_its_exceptions,
};
pub use distinct_method::{read_program_declares_once, table_declares_once};
pub use overriding::{
    accepted_table_has_no_override_cases, programs_of_same_tables_have_same_cases,
    signed_program_has_same_tables,
};
pub use program_fault::{
    counted_program_does_not_stop, counted_program_has_room, fault_count_is_one, first_stop_is_one,
};
