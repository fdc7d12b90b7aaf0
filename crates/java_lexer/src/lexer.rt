ghost use Rattle.std.specs.Prelude.{◌≡◌, ℕ, ◌+◌, ◌-◌, ◌<◌, ◌≤◌, ◌^◌, ◌++◌, List, length, IfOk, IfErr, OnOk};
ghost use Rattle.std.specs.List.{All};
ghost use Rattle.std.specs.Str.{IsUtf8, IsValidUpTo};
ghost use Rattle.java_syntax.specs.declared.tokens.Token.{Token};
ghost use Rattle.java_lexer.specs.Cut.{Cut, IsCut, IsTokenOf, IsStopAt, HasNoCut};
ghost use Rattle.java_lexer.specs.Reading.{IsHalt, tokens_of, refused_at};

use crate::characters::behind;
use crate::classes::piece_class;
use crate::fronts::{Front, front_of};
use crate::places::{Cursor, place_behind};
use java_syntax::{Token, Word};
use rlc_base::{Code, NoMemory, Pos, Refusal, Stop};
use std::alloc::Global;

/// Why the cut of a text stopped.
#[derive(Clone, Copy)]
pub enum Halt {
    /// The code refuses what stands at the place.
    Stuck(Code, usize),
    /// Memory ran out.
    NoMemory,
}

/// Adds the token of this class, if a piece has one.
fn put(
    tokens: &mut Vec<Token>,
    word: Option<Word>,
    start: u32,
    len: u32,
    pos: Pos,
) -> Result<(), NoMemory>
    ensures { OnOk result (tokens.new.items ≡ tokens.old.items ++ tokens_of word start len pos) }
{
    let Some(word) = word else {
        return Ok(());
    };
    match tokens.push(Token {
        word,
        start,
        len,
        pos,
    }) {
        Ok(()) => Ok(()),
        Err(_) => Err(NoMemory),
    }
}

/// Cuts the bytes of a file as far as they go, whether they are UTF-8 or not.
fn cut(alloc: Global, file: u32, bytes: &[u8]) -> Result<Vec<Token>, Halt>
    requires { length bytes.now < 2 ^ 32 - 1 }
    ensures cut { IfOk result (λ tokens. Cut file bytes.now 0 tokens.items) }
    ensures stuck { IfErr result (IsHalt bytes.now) }
{
    let mut tokens = Vec::new(alloc);
    let mut cursor = Cursor::START;
    let mut at = 0;
    while at < bytes.len() {
        let rest = behind(bytes, at);
        match front_of(rest) {
            Front::Refused(code) => return Err(Halt::Stuck(code, at)),
            Front::Piece(kind, len) => {
                let pos = Pos {
                    file,
                    line: cursor.line,
                    col: cursor.col,
                };
                let word = piece_class(kind, &rest[..len]);
                let Ok(()) = put(&mut tokens, word, at as u32, len as u32, pos) else {
                    return Err(Halt::NoMemory);
                };
                cursor = cursor.moved_past(&rest[..len]);
                at += len;
            }
        }
    }
    Ok(tokens)
}

/// How many bytes of the text are UTF-8, up to the first that is not.
fn utf8_len(bytes: &[u8]) -> usize
    ensures within { result ≤ length bytes.now }
    ensures whole { result ≡ length bytes.now → IsUtf8 bytes.now }
    ensures part { result < length bytes.now → IsValidUpTo bytes.now result }
{
    match str::from_utf8(bytes) {
        Ok(_) => bytes.len(),
        Err(error) => error.valid_up_to(),
    }
}

/// The refusal of the bytes at a place.
fn refused(file: u32, bytes: &[u8], place: usize, code: Code) -> Stop
    requires within { place ≤ length bytes.now }
    requires small { length bytes.now < 2 ^ 32 - 1 }
    ensures { result ≡ refused_at file bytes.now place code }
{
    let pos = place_behind(file, &bytes[..place]);
    Stop::Refused(Refusal { code, pos })
}

/// Cuts the bytes of a file into tokens, each the longest possible where it begins (JLS 3.2), and tells each by its class in
/// the grammar; white space and comments part tokens and are left out. A refusal stands at the least place where the bytes are no text of the subset, and has the least
/// code there: `BadByte` for a byte that begins no token or is no UTF-8, `OpenComment` for a comment that is not closed,
/// `OpenText` for a character or string literal that is not closed on its line, `BadLiteral` for a literal that the subset
/// leaves out, and `LeftOutWord` for such a word. Memory may run out.
pub fn lex(alloc: Global, file: u32, bytes: &[u8]) -> Result<Vec<Token>, Stop>
    requires { length bytes.now < 2 ^ 32 - 1 }
    ensures cut { IfOk result (λ tokens. IsCut file bytes.now tokens.items) }
    ensures only { IfOk result (λ tokens. (others : List Token) → IsCut file bytes.now others → others ≡ tokens.items) }
    ensures tokens { IfOk result (λ tokens. All (IsTokenOf bytes.now) tokens.items) }

    // want of memory alone says nothing
    ensures refused { IfErr result (IsStopAt file bytes.now) }
    ensures no_cut { IfErr result (HasNoCut file bytes.now) }
{
    let valid = utf8_len(bytes);
    match cut(alloc, file, bytes) {
        Ok(tokens) => {
            if valid == bytes.len() {
                Ok(tokens)
            } else {
                Err(refused(file, bytes, valid, Code::BadByte))
            }
        }
        Err(Halt::Stuck(code, place)) => {
            if place < valid {
                Err(refused(file, bytes, place, code))
            } else {
                Err(refused(file, bytes, valid, Code::BadByte))
            }
        }
        Err(Halt::NoMemory) => Err(Stop::NoMemory),
    }
}
