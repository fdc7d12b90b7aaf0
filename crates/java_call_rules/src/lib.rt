//! The rules of method calls and of instance creations in the surroundings of a body: which method or constructor the arguments
//! mean, and the typed trees that are made (JLS 15.9, 15.12).
#![tactic(auto)]

mod calls;
mod overloads;
mod settled_calls;

pub use java_expression_parts::{
    BodyScope, ExpressionTyping, cast_type, class_of_name, count_unknown, element_type,
    needed_value, one, operand, settle_in, tested_type, trees_for, two,
};
pub use java_member_rules::object_call_by;
pub use overloads::{MethodResolution, resolution};
pub use settled_calls::{
    class_method_call, new_object, object_method_call, super_call, unqualified_call,
};
