//! The annotations that the checker reads: their kinds, their names, and the texts that they hold.
#![tactic(auto)]

mod annotation;
mod positions;

pub use annotation::{
    AnnotationKind, KINDS, first_of, is_marked, is_of, is_read, kind_named, names_listed, texts_at,
};
pub use positions::{is_decimal, is_position};
