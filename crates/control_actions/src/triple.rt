//! The steps of the control relation, over the table of lists.

use crate::action::{Action, Edge};
use rlc_base::Pos;

/// A step of a control: what it does, the way that it goes, the control that is left then, by its number in the table of
/// lists, and its place.
#[derive(Clone, Copy)]
pub struct Triple {
    pub action: Action,
    pub edge: Edge,
    pub to: usize,
    pub pos: Pos,
}
