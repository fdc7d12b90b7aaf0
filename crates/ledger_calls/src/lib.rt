//! Calls in a run: which method runs, what the library does, and what a call does to obligations when it begins and ends.
#![tactic(auto)]

mod arguments;
mod dispatch;
mod exceptions;
mod library;
mod operands;
mod results;
mod signatures;

pub use arguments::{argument_values, move_arguments, share_arguments};
pub use dispatch::{has_null_target, running};
pub use exceptions::{is_stray_from, leaves_by};
pub use library::{library_birth, library_method, on_this, settled};
pub use operands::{alias_target, made_by_new, operand_of, position_of, reset_target};
pub use results::{add_library_notes, add_receiver_note, conduct_value};
pub use signatures::{has_owning_result, is_alias, result_of};
