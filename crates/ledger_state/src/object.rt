//! The class objects of a run.

use crate::entry::Owner;
use crate::value::Value;
use program_model::{ClassId, FieldId};
use rlc_base::NameSet;

/// An alias has the obligation of another object.
#[derive(Clone, Copy)]
pub struct Link {
    /// The number of the other object, which was made before.
    pub to: u64,
    /// A call of the library made the link; else a constructor of the program did.
    pub by_library: bool,
}

/// A class object with its ledger. It has an obligation once it is finished, and one that is linked has that of the object
/// to which its links lead.
#[derive(Clone, Copy)]
pub struct Object {
    pub class: ClassId,
    pub link: Option<Link>,
    pub finished: bool,
    /// The names of the methods that must be called on it.
    pub must: NameSet,
    /// The names of the methods that were called on it.
    pub called: NameSet,
    pub owner: Owner,
}

/// What a field of an object holds, once it has been stored.
#[derive(Clone, Copy)]
pub struct StoredField {
    /// The number of the object.
    pub holder: u64,
    pub field: FieldId,
    pub value: Value,
}

/// What a static field holds, once it has been stored.
#[derive(Clone, Copy)]
pub struct StoredStatic {
    pub field: FieldId,
    pub value: Value,
}
