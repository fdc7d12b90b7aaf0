//! Owners of obligations, and the lines of the ledger.

use program_model::{ClassId, FieldId};
use rlc_base::{NameId, Pos};

/// Who is to see that an object's obligation is met.
#[derive(Clone, Copy, Debug, PartialEq, Eq)]
pub enum Owner {
    /// The frame at this position of the stack. That of `main` is 1.
    Frame(u64),
    /// The field of the object with this number.
    Field(u64, FieldId),
    Library,
    /// Its owner gave it up when it was met.
    Released,
    /// Its owner gave it up, or lost it, when it was not met.
    Lost,
    /// It is not finished, or it is an alias of another object: then the owner is that object's.
    Unowned,
}

/// How an object was lost.
#[derive(Clone, Copy, Debug, PartialEq, Eq)]
pub enum LeakWord {
    /// An owning field that held it took another object.
    Overwritten,
    /// The frame that owned it ended.
    Exit,
    /// No place of the frame that owned it holds it any more.
    Lost,
    /// A constructor ended by an exception while an owning field of its `this` owned it.
    ConstructorThrow,
}

/// A line of the ledger, with the place of the step. Objects are named by their numbers.
#[derive(Clone, Copy, Debug, PartialEq, Eq)]
pub enum Entry {
    /// The object of this class got its set and its owner: a constructor finished, or a call of the library made it.
    Born(u64, ClassId, Owner, Pos),
    /// The object of this class joined another one, of which it is an alias.
    Linked(u64, ClassId, u64, Pos),
    /// A name that is new among those called on the object.
    Called(u64, NameId, Pos),
    /// The object's owner changed.
    Owner(u64, Owner, Pos),
    /// The object's obligation was created anew.
    Reset(u64, Pos),
    /// The object was lost before its obligation was met.
    Leak(u64, LeakWord, Pos),
}
