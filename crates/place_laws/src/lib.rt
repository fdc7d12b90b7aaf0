//! Where the values of a frame stand, and where each comes from in a step:
//!
//! - Where the places of a fact, and the values of a frame, come from in a step: the two follow one source.
//! - Where `this` and its owning fields stand in the places of a frame, and where each place takes its value from.
//! - Each step of a valid program moves variables and temps alone, reads fields that are there, and names by `this` what its class has, and
//!   by `super` what another class declares.
//! - No object of a class passes through an operator, a static field or an array.
//! - Which temps of a frame hold no object after a step of the machine.
#![tactic(auto)]

mod facts;
mod frames;
mod operations;
mod steps;
mod values;

pub use facts::{
    no_other_place_joins, place_is_numbered, places_come_from_sources, places_stay_in_range,
    single_place, some_place_is_held, source_is_small,
};
pub use frames::temps_after_step;
pub use operations::{arrays_keep_none, operations_give_none, plain_gives_none, statics_keep_none};
pub use steps::steps_are_typed;
pub use values::{
    alias_stands, held_place_counts, made_value_stands, value_comes_from_source, variables_stay,
};
