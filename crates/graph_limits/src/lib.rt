//! Laws of a body that passes no limit on places: sets of places have room for all that its steps name, so that its paths can be
//! followed.
#![tactic(auto)]

mod laws;

pub use laws::{
    graph_has_room, interests_are_small, pairs_are_the_same, paths_have_room, signed_lists_fields,
    typed_lists_fields,
};
