//! Obligations in a run: who owns an object and what was called on it, and how calls, stores and ends of frames change that.
#![tactic(auto)]

mod active_frame;
mod births;
mod heap_changes;
mod losing;
mod moves;
mod note;
mod note_spread;
mod promises;
mod resets;
mod stores;
mod unmet;

pub use active_frame::ActiveFrame;
pub use births::{alias_born, finished, first_set, linked_to};
pub use heap_changes::{end_frame, end_holder};
pub use losing::lose;
pub use moves::move_value;
pub use note::{Note, note_on};
pub use note_spread::note_calls;
pub use promises::{add_kept, is_library_method};
pub use resets::{reached, reset_roots};
pub use stores::{OwningStore, displace, holder_roots, move_in};
pub use unmet::{
    given_up, is_finished, is_unmet, is_unmet_root, may_move_root, owner_of, with_owner,
};
