ghost use Rattle.std.specs.Prelude.{◌≡◌, ◌-◌, ◌<◌, ◌^◌, length};
ghost use Rattle.java_lexer.specs.Cut.{place_behind};

use crate::places::place_behind;
use java_syntax::Token;
use rlc_base::Pos;

/// A file that is parsed: its number, its bytes, and the tokens into which `lex` cuts them.
#[derive(Clone, Copy)]
pub struct Source<'a> {
    /// The number of the file, as in a place.
    pub file: u32,
    /// What the file holds.
    pub bytes: &'a [u8],
    /// Its tokens, in their order.
    pub tokens: &'a [Token],
}

/// The place behind the last byte of the file, where a refusal stands that is found at its end. Lines and columns count from 1,
/// columns in bytes; a line ends at a line feed, at a carriage return, or at both together (JLS 3.4).
pub fn end_place(source: &Source) -> Pos
    requires { length source.now.bytes.now < 2 ^ 32 - 1 }
    ensures { result ≡ place_behind source.now.file source.now.bytes.now }
{
    place_behind(source.file, source.bytes)
}
