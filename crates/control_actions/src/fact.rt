//! The facts that the flow rules follow, where they begin, and how they end.

use crate::place::Places;
use program_model::{ClassId, FieldId};
use rlc_base::{NameSet, Pos};

/// How a fact's places hold its object.
#[derive(Clone, Copy, PartialEq, Eq, Hash)]
pub enum Mode {
    /// The frame owns the object.
    Own,
    /// Nothing is said of who owns it.
    None,
    /// An owning field of `this` owns it.
    Held,
    /// The caller lent it, to be reset.
    Lent,
    /// The object is an alias whose resource the caller has.
    Alias,
}

/// What is known, at a control of a body, of the object of one origin.
#[derive(Clone, Copy, PartialEq, Eq, Hash)]
pub struct Fact {
    /// The number of its origin in the body's list of origins.
    pub origin: u32,
    /// The places that hold the object.
    pub places: Places,
    pub mode: Mode,
    /// The methods that were called on it.
    pub called: NameSet,
    /// Its need is the origin's full set, and not its first set.
    pub full: bool,
}

/// What a fact's object came from.
#[derive(Clone, Copy, PartialEq, Eq, Hash)]
pub enum OriginKind {
    /// A declared parameter, by its number in the list of variables.
    Param(u32),
    ThisRef,
    FieldAt(FieldId),
    /// A `new`.
    New,
    /// The result of a call.
    Result,
    /// The read of a field or of a library's static field.
    Read,
    /// The part of `this` that its super class must see finished. No birth gives it yet.
    SuperPart,
}

/// The birth of a fact.
#[derive(Clone, Copy, PartialEq, Eq, Hash)]
pub struct Origin {
    pub kind: OriginKind,
    /// The place of the step that bears it; at entry that of the declared name, or of the method for `this`.
    pub pos: Pos,
    pub class: ClassId,
    /// The methods that must be called on the object as it is born.
    pub first: NameSet,
    /// The methods that must be called on it once its obligation was created anew.
    pub full: NameSet,
}

/// The faults, in the order in which they are sorted.
#[derive(Clone, Copy, PartialEq, Eq, Hash)]
pub enum Rule {
    Lost,
    Exit,
    Throw,
    Overwritten,
    NotOwned,
    ResetNotOwned,
    Narrow,
    Ensures,
    AliasKept,
    Twice,
    CalledMissing,
    CtorThrow,
    ResetMissing,
}

/// What a step makes of a fact.
#[derive(Clone, Copy)]
pub enum Outcome {
    Next(Fact),
    Gone,
    /// The rule that is broken, and the missing names.
    Fault(Rule, NameSet),
}
