//! What a step changes of the heap, apart from it: how the heap takes it, and the lists and the index of its objects then.
#![tactic(auto)]

mod change;
mod ending;
mod indexing;
mod listing;
mod results;

pub use change::{DraftChange, HeapChange, take_change};
pub use ending::end_top_list;
pub use indexing::index_change;
pub use listing::list_change;
pub use results::{StepResult, draft_result, whole_result};
