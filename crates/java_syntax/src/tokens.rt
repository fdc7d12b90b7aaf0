use crate::actions::Action;
use crate::productions::Production;
use crate::words::Word;
use rlc_base::Pos;

/// A token by its class, with its bytes in the file.
#[derive(Copy, Clone)]
pub struct Token {
    /// Its class.
    pub word: Word,
    /// Where its bytes begin in the file, counted from 0.
    pub start: u32,
    /// How many bytes it has.
    pub len: u32,
    /// Its place.
    pub pos: Pos,
}

/// A step of a derivation from the left.
#[derive(Copy, Clone)]
pub enum Event {
    /// A token was read.
    Took(Token),
    /// A symbol was replaced by the items of this production.
    Used(Production),
    /// The turn came to an action.
    Did(Action),
}
