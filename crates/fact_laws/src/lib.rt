//! What the flow rules make of a fact at a step:
//!
//! - What the flow rules make of a fact whose object the frame owns and owes a call: none is ever gone.
//! - What the flow rules make of a fact in any mode at a step that leaves it a place: it goes on, or a rule is broken.
//! - A fact at a parameter that the signature of the body's method speaks of is the one with which the parameter begins, and a fact at `this` is
//!   that of `this`.
//! - In which facts the objects are whose obligations calls create anew.
#![tactic(auto)]

mod fact_step;
mod facts;
mod owned_fact;
mod reset_target;

pub use fact_step::{
    fact_at_calls, fact_at_ends, fact_at_other_steps, fact_at_stores, fact_of_target,
    held_result_stays, moved_fact_is_not_owned, owed_fact_with_target, promises_at_ends,
    target_is_answered,
};
pub use facts::{
    alias_facts_hold_in_their_parameter, held_facts_are_those_of_the_argument,
    parameter_facts_have_declared_classes, spoken_parameters_have_their_own_facts,
    spoken_parameters_keep_their_facts, this_has_its_own_fact,
};
pub use owned_fact::{
    fact_is_owed, owed_fact_at_calls, owed_fact_at_ends, owed_fact_at_other_steps,
    result_of_no_type_stays,
};
pub use reset_target::{lent_facts_are_those_of_targets, origins_need_all, targets_are_in_hands};
