//! The cells of the table of lists.

use crate::item::Item;

/// An item with the number of the list behind it.
#[derive(Clone, Copy, PartialEq, Eq, Hash)]
pub struct Cell {
    pub item: Item,
    pub tail: usize,
}
