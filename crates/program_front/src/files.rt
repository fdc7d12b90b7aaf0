//! The files that are read.

use java_syntax::Token;

/// A file: its number, as in a place, and its bytes.
#[derive(Clone, Copy)]
pub struct InputFile<'a> {
    /// The number of the file: 0 is the core stub, then come the other stubs and the Java sources.
    pub number: u32,
    /// What the file holds.
    pub bytes: &'a [u8],
}

/// A file with the tokens into which its bytes are cut.
#[derive(Drop)]
pub struct CutFile<'a> {
    /// The file.
    pub file: InputFile<'a>,
    /// Its tokens, in their order.
    pub tokens: Vec<Token>,
}
