//! Changes of objects.

use ledger_state::Object;

/// The change of the object with this number: what it was before, where it was there, and what it is.
#[derive(Clone, Copy)]
pub struct ObjectChange {
    pub number: u64,
    pub before: Option<Object>,
    pub after: Object,
}
