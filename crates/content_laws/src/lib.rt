//! What owning fields hold and own in a run:
//!
//! - What a step leaves of the heap, for what owning fields hold and own, and for where links lead.
//! - What owning fields hold and own, and where links lead, over the steps of a run.
//! - What a constructor has stored in the owning fields of its object, while it runs.
//! - Calls on aliases of the program, which count for what is behind them.
#![tactic(auto)]

mod content;
mod filled_field;
mod going;
mod passed_calls;

pub use content::{fields_hold_at_start, fields_hold_step};
pub use filled_field::{fields_filled_at_start, fields_filled_step};
pub use going::{
    call_end_goes_on, call_start_goes_on, contents_go_on, inner_step_goes_on, leads_go_on,
    library_call_goes_on, linked_object_leads,
};
pub use passed_calls::calls_are_made_behind;
