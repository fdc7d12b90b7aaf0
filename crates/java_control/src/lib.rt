//! The control relation of the Java subset: what is left of a body to run, and what each step makes of it.
#![tactic(auto)]

mod actions;
mod completions;
mod control;
mod statements;

pub use control::{next, start};
pub use control_actions::{
    Action, Cell, ClauseId, Closing, Completion, Condition, Edge, Fact, Item, Lists, Mode,
    Operator, Origin, OriginKind, Outcome, Place, Places, PlainValue, Rule, Scope, TargetForm,
    Triple, called_method, clause_taken, completion_temp, declares_field, edges_of_exceptions,
    exceptions_of, field_place, has_place, is_dropped, is_reset_of_this, operand_at, source,
    target_form,
};
