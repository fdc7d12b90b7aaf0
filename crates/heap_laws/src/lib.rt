//! How heaps change:
//!
//! - How heaps change: one law or two for each of the few operations on them.
//! - What a store into an owning field, and the end of a constructor by an exception, leave of each object.
//! - What a call of the library leaves of each object, and what an exception of an operation does.
//! - What a call of a method of the program leaves of each object, as it begins and as it ends.
//! - What an honest library makes at a call is what the signature of the call declares.
#![tactic(auto)]

mod calls;
mod ends;
mod gone;
mod laws;
mod leading;
mod lines;
mod moves;
mod notes;
mod objects;
mod resets;
mod roots;
mod stores;

pub use calls::{
    exceptions_are_the_librarys, exceptions_keep_links, given_arguments_stay_given,
    library_aliases_are_older_or_made, library_calls_leak_nothing, library_links_stay,
    library_objects_are_older_or_made, library_objects_go_on, promised_names_are_called,
    receiver_is_called, unfinished_objects_stay_unowned,
};
pub use ends::{ended_frame_gives_up, ended_holder_gives_up};
pub use gone::{contents_end_met, nothing_unmet_goes};
pub use laws::made_object_fits;
pub use leading::{
    leading_links, leading_links_over_a_link, roots_over_a_link, unchanged_fields_keep_contents,
};
pub use lines::{
    birth_lines_leak_nothing, called_lines_leak_nothing, end_of_frame_leaks_nothing,
    end_of_holder_leaks_nothing, owner_lines_leak_nothing, reset_lines_leak_nothing,
    step_leaks_nothing,
};
pub use moves::{
    given_arguments_are_owned, moved_arguments_are_given, moved_arguments_are_older, moved_value,
    moves_make_nothing,
};
pub use notes::{
    called_names_are_noted, following_notes_stand, kept_names_reach_contents,
    noted_names_reach_roots, noted_names_stand, notes_add_names,
};
pub use objects::{
    appended_object_at, changed_object_at, evolving_heaps, nothing_is_changed, nothing_is_lost,
    numbers_are_in_range,
};
pub use resets::{
    any_given_arguments_stay_given, any_library_aliases_are_older_or_made, any_library_links_stay,
    any_library_objects_are_older_or_made, any_library_objects_go_on,
    any_promised_names_are_called, any_receiver_is_called, any_unfinished_objects_stay_unowned,
    emptied_objects, emptied_roots,
};
pub use roots::{
    links_go_on, links_stay, objects_go_on, root_of_changed, roots_go_on, roots_of_links,
};
pub use stores::{
    displaced_met_leaks_nothing, holder_is_not_reset, owning_field_holds, owning_value_moves,
    stored_objects,
};
