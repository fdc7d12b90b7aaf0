//! Laws of the steps of bodies, over the control relation and the flow rules alone:
//!
//! - All steps of a control at which a call stands are steps of that call.
//! - Each step of a valid program names what is there: a variable of its body, a method or a constructor.
//! - No step of a valid program sets `this`, nor a parameter that the signature of its method speaks of, where no expression of the body
//!   assigns one.
//! - Each step of a valid body that takes `this` from a temp finds it there.
//! - Super constructors are called by constructors, and are those of the super class; owning fields of `this` are stored where their class
//!   declares them, other fields where an expression of the body assigns them; the objects that are made are of classes that are not
//!   abstract; calls on objects name instance methods; and a super call is one of the body's own statements.
//! - The call of the super class's constructor comes first in a constructor: no owning field of `this` is stored before it.
//! - Each step of a valid body takes no object but one of class `String` where the static type is no class type.
//! - Each step of a valid body takes an object of a class or null where the static type is under the class: where it stores, passes, returns or throws a value.
//! - A temp that is known to hold no object after a step takes its value from a place that holds none, or from what the step makes.
#![tactic(auto)]

mod assigned_step;
mod call_step;
mod class_operand;
mod constructor_step;
mod named_step;
mod operand_type;
mod sources;
mod starts;
mod target_step;

pub use assigned_step::{spoken_parameters_stay, this_stays, unset_variables_keep_their_values};
pub use call_step::call_has_one_action;
pub use class_operand::{start_finds_class, steps_find_class};
pub use constructor_step::{
    calls_on_objects_name_instance_methods, made_objects_are_concrete, steps_have_their_place,
    stored_fields_are_assigned, super_calls_stand_in_bodies,
};
pub use named_step::steps_name_what_is_there;
pub use operand_type::{start_finds_types, steps_find_types};
pub use sources::temps_hold_none;
pub use starts::stores_follow_super_call;
pub use target_step::{start_finds_this, steps_find_this, temps_keep_this};
