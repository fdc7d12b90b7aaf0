//! The rules of statements (JLS 14), by the typings of their parts: what the variables that they declare are, what is refused of
//! a statement itself, and whether it can complete normally.
#![tactic(auto)]

mod catches;
mod completion;
mod resources;
mod statements;
mod variables;

pub use catches::{
    count_alternatives, is_final_parameter, parameter_type, push_caught, push_named,
};
pub use completion::{
    Completion, abrupt, and_then, breaking, continuing, do_completion, is_always_true,
    loop_completion, normal, one_of,
};
pub use java_call_rules::{BodyScope, cast_type, count_unknown, operand};
pub use resources::{class_type, closing_by, count_closeable};
pub use statements::{
    count_condition, count_plain_return, count_return, count_storing, count_throw, count_unless,
};
pub use variables::{constant_value, count_double, has_final, local_variable};
