//! The choices of a run, and what the library may do by one.

use program_model::ClassId;

/// What one call of the library does.
#[derive(Clone, Copy, Debug, PartialEq, Eq)]
pub struct Choice {
    /// The way: 0 is a plain return.
    pub way: u32,
    /// The value that a plain return gives, the place of a class in the list of those that an object may have, or the
    /// number of an object.
    pub value: i64,
}

/// The choices of a run.
#[derive(Drop)]
pub struct Choices {
    /// The length of the argument of `main`.
    pub args: u32,
    /// One choice for each call of the library, in order. Past the end each choice is way 0 with value 0.
    pub list: Vec<Choice>,
}

/// What the library does at a call.
#[derive(Clone, Copy, Debug, PartialEq, Eq)]
pub enum Conduct {
    /// It throws a fresh object of this class.
    Throws(ClassId),
    /// It gives a fresh object of this class.
    Fresh(ClassId),
    /// It gives null.
    Null,
    /// It gives the object with this number, where that exists and is of the type; else the call returns plainly.
    Existing(u64),
    /// It gives the argument that the result is an alias of, where its class is under the result's type; else the call
    /// returns plainly.
    Argument,
    /// It gives a value of a primitive type, a truth value as 0 or 1; or a new array of this length; or a text, of
    /// which nothing is kept but that it is not null, as 0.
    Value(i64),
    /// It gives no value.
    Nothing,
}
