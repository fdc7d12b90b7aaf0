//! Objects with their numbers.

use ledger_state::Object;

/// An object, with its number.
#[derive(Clone, Copy)]
pub struct Numbered {
    pub number: u64,
    pub object: Object,
}
