//! What the places of the frames hold is in facts that are true of it:
//!
//! - What the facts say of the object in an owning field: where another one is stored over it, and where the frame ends.
//! - A constructor with an aliased argument stores no other object that may owe a call, and as it ends normally an owning field of `this` holds
//!   the argument.
//! - In a run of an accepted program, what the places of the frames hold is in facts that are true of it, and what owning fields of finished objects hold they own.
#![tactic(auto)]

mod arguments;
mod ends;
mod steps;
mod stores;

pub use arguments::{aliased_field_holds_the_argument, argument_alone_is_stored};
pub use ends::{contents_are_met_at_throw, promises_are_kept_at_end};
pub use steps::{
    being_made_at_start, being_made_step, covered_at_start, covered_step, fields_own_at_start,
    fields_own_step, linked_are_aliases_at_start, linked_are_aliases_step, makers_own_at_start,
    makers_own_step,
};
pub use stores::overwritten_is_met;
