//! The frames of a run: which step the values of a frame choose, and what its places hold after it.
#![tactic(auto)]

mod choosing;
mod edges;
mod places;

pub use choosing::{chosen, method_body, step_by};
pub use edges::{edge_of_class, operation_edge};
pub use ledger_calls::{
    has_null_target, is_stray_from, leaves_by, library_method, on_this, operand_of, running,
    settled,
};
pub use ledger_operations::thrown_by_operation;
pub use places::locals_after;
