//! What is known of an object at a point of a body: where it is held, what must still be called on it, and what becomes of that
//! where its places change; and where the operands of a call stand among the places.
#![tactic(auto)]

mod callees;
mod facts;

pub use callees::{
    callee, holds_argument, holds_operand, is_super_target, is_this_target, may_be_null_target,
    may_have_null_target,
};
pub use facts::{
    has_field, has_part, has_temp, is_alias, is_held, is_lent, is_met, is_nowhere, is_origin_at,
    is_own, is_this_origin, leave, missing, need, owes, without_fields, without_parts,
    without_scope, without_temps,
};
