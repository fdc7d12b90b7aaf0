//! What the control relation of the Java subset speaks of: places of a frame and sets of them, actions of a step, what is left of a
//! body to run, the table of its lists, and the facts of the flow rules; what an action does: what it calls and with which operands, which places it
//! empties, from which place each place takes its value, and which exceptions it throws; and the rules of `try` statements: which catch clauses take
//! an exception, and in what order resources are closed.
#![tactic(auto)]

mod action;
mod calls;
mod cell;
mod clauses;
mod exceptions;
mod fact;
mod item;
mod lists;
mod null_tests;
mod owned;
mod place;
mod resources;
mod scopes;
mod sources;
mod triple;

pub use action::{Action, ClauseId, Completion, Edge, Operator, PlainValue, Scope, TargetForm};
pub use calls::{called_method, completion_temp, is_reset_of_this, operand_at, target_form};
pub use cell::Cell;
pub use clauses::{clause_taken, may_take, takes_wholly};
pub use exceptions::{edges_of_exceptions, exception_depth, exceptions_of};
pub use fact::{Fact, Mode, Origin, OriginKind, Outcome, Rule};
pub use item::{Closing, Condition, Item};
pub use lists::Lists;
pub use null_tests::compared_with_null;
pub use owned::{declares_field, field_place, has_place, is_this};
pub use place::{Place, Places};
pub use resources::closing_order;
pub use scopes::is_dropped;
pub use sources::source;
pub use triple::Triple;
