//! What the steps of a run do to the heap, and the lines of the ledger that they write: operations and stores within a frame, calls
//! that begin, calls of the library, and ends of frames.
#![tactic(auto)]

mod call_ends;
mod call_starts;
mod effect;
mod frame_ends;
mod inner_steps;
mod library_calls;
mod notes_and_resets;
mod store;
mod stores;
mod thrown;

pub use call_ends::{FrameEnd, return_effect};
pub use call_starts::{self_begun, start_effect};
pub use effect::StepEffect;
pub use frame_ends::{answered, exception_class, main_effect, result_value};
pub use inner_steps::inner_effect;
pub use library_calls::library_effect;
pub use store::{Store, store_of};
pub use thrown::thrown_value;
