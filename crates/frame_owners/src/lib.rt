//! Which objects the frames of a run own. For each frame stands a list of the objects that it may own, so that the end of a frame looks
//! at those alone.
#![tactic(auto)]

mod lists;
mod owners;
mod releases;

pub use lists::{add_list, add_owned, drop_list};
pub use owners::owner_lists;
pub use releases::{is_of_frame, owns_unmet, release};
