ghost use Rattle.std.specs.Prelude.{◌≡◌, ◌≢◌, ◌+◌, ◌<◌, ◌≤◌, false, true, length, drop, slice_index, Some, None, IfSome, not, take, ◌&&◌, ◌||◌, ◌==◌};
ghost use Rattle.std.specs.Char.{is_ascii_digit};
ghost use Rattle.std.specs.List.{prefix_len};
ghost use Rattle.java_lexer.specs.Characters.{is_line_end, is_identifier_start, BeginsWith};
ghost use Rattle.java_lexer.specs.Literals.{is_integer, is_long};
ghost use Rattle.java_lexer.specs.Words.{separators, operators, longest_listed};
ghost use Rattle.java_lexer.specs.Tokens.{comment_end};
ghost use Rattle.java_lexer.specs.Refusals.{begins_other_piece};
ghost use Rattle.java_lexer.specs.Reading.{closing_quote, IsFrontOf, IsSymbolAt, word_kind};

use crate::characters::{
    behind, character_at, is_blank, is_identifier_start, is_line_end, word_len,
};
use crate::literals::{
    byte_at, closing_quote, has_known_escapes, is_character, is_integer, is_long,
};
use crate::token::TokenKind;
use crate::{is_left_out, is_reserved, is_value, operator_len, separator_len};
use rlc_base::Code;

/// What a text begins with.
#[derive(Clone, Copy)]
pub enum Front {
    /// A token of this kind, or white space or a comment without a kind, and how many bytes it takes.
    Piece(Option<TokenKind>, usize),
    /// What the subset doesn't have, and the code of the refusal.
    Refused(Code),
}

/// How many bytes the text has up to the end of its first `*/`, or None where it has none.
fn comment_end(text: &[u8]) -> Option<usize>
    ensures value { result ≡ comment_end text.now }
    ensures within { IfSome result (λ n. n ≤ length text.now) }
{
    for (place, byte) in text.iter().enumerate() {
        if *byte == b'*' && byte_at(text, place + 1) == b'/' {
            return Some(place + 2);
        }
    }
    None
}

/// How many bytes the text has before the end of its first line.
fn line_len(text: &[u8]) -> usize
    ensures value { result ≡ prefix_len (λ b. not (is_line_end b)) text.now }
    ensures within { result ≤ length text.now }
{
    text.iter().take_while(|byte| !is_line_end(**byte)).count()
}

/// A separator or an operator, whichever is longer.
fn symbol(text: &[u8]) -> Front
    requires { IsSymbolAt text.now }
    ensures { IsFrontOf text.now result }
{
    let separator = separator_len(text);
    let operator = operator_len(text);
    if operator < separator {
        Front::Piece(Some(TokenKind::Separator), separator)
    } else {
        Front::Piece(Some(TokenKind::Operator), operator)
    }
}

/// A comment, or an operator that begins with `/`.
fn slash(text: &[u8]) -> Front
    requires { (0 < length text.now) × (slice_index text.now 0 ≡ 47) }
    ensures { IsFrontOf text.now result }
{
    let second = byte_at(text, 1);
    if second == b'/' {
        Front::Piece(None, 2 + line_len(behind(text, 2)))
    } else if second == b'*' {
        match comment_end(behind(text, 2)) {
            Some(len) => Front::Piece(None, 2 + len),
            None => Front::Refused(Code::OpenComment),
        }
    } else {
        symbol(text)
    }
}

/// A separator that begins with a point, or a number that does.
fn point(text: &[u8]) -> Front
    requires { (0 < length text.now) × (slice_index text.now 0 ≡ 46) }
    ensures { IsFrontOf text.now result }
{
    if byte_at(text, 1).is_ascii_digit() {
        Front::Refused(Code::BadLiteral)
    } else {
        symbol(text)
    }
}

/// Whether the first bytes of the text are an integer literal and, where it has no suffix, no point is behind them.
fn is_whole_integer(text: &[u8], len: usize) -> bool
    requires { len ≤ length text.now }
    ensures { result ≡ (is_integer (take len text.now) && (is_long (take len text.now) || not (slice_index text.now len == 46))) }
{
    let word = &text[..len];
    is_integer(word) & (is_long(word) | (byte_at(text, len) != b'.'))
}

/// A number.
fn number(text: &[u8]) -> Front
    requires { is_ascii_digit (slice_index text.now 0) ≡ true }
    ensures { IsFrontOf text.now result }
{
    let len = word_len(text);
    if is_whole_integer(text, len) {
        Front::Piece(Some(TokenKind::Literal), len)
    } else {
        Front::Refused(Code::BadLiteral)
    }
}

/// A character literal whose closing quote is known, as the number of bytes before it.
fn closed_character(text: &[u8], len: usize) -> Front
    requires first { (0 < length text.now) × (slice_index text.now 0 ≡ 39) }
    requires closed { closing_quote 39 false (drop 1 text.now) ≡ Some len }
    requires within { len + 1 < length text.now }
    ensures { IsFrontOf text.now result }
{
    if is_character(&behind(text, 1)[..len]) {
        Front::Piece(Some(TokenKind::Literal), len + 2)
    } else {
        Front::Refused(Code::BadLiteral)
    }
}

/// A character literal.
fn character(text: &[u8]) -> Front
    requires { (0 < length text.now) × (slice_index text.now 0 ≡ 39) }
    ensures { IsFrontOf text.now result }
{
    match closing_quote(b'\'', behind(text, 1)) {
        None => Front::Refused(Code::OpenText),
        Some(len) => closed_character(text, len),
    }
}

/// A string literal whose closing quote is known, as the number of bytes before it, or a text block.
fn closed_string(text: &[u8], len: usize) -> Front
    requires first { (0 < length text.now) × (slice_index text.now 0 ≡ 34) }
    requires closed { closing_quote 34 false (drop 1 text.now) ≡ Some len }
    requires within { len + 1 < length text.now }
    ensures { IsFrontOf text.now result }
{
    if (len == 0) & (byte_at(text, 2) == b'"') {
        Front::Refused(Code::BadLiteral)
    } else if has_known_escapes(&behind(text, 1)[..len]) {
        Front::Piece(Some(TokenKind::Literal), len + 2)
    } else {
        Front::Refused(Code::BadLiteral)
    }
}

/// A string literal.
fn string(text: &[u8]) -> Front
    requires { (0 < length text.now) × (slice_index text.now 0 ≡ 34) }
    ensures { IsFrontOf text.now result }
{
    match closing_quote(b'"', behind(text, 1)) {
        None => Front::Refused(Code::OpenText),
        Some(len) => closed_string(text, len),
    }
}

/// The kind of a word that is not left out.
fn word_kind(word: &[u8]) -> TokenKind
    ensures { result ≡ word_kind word.now }
{
    if is_reserved(word) {
        TokenKind::Reserved
    } else if is_value(word) {
        TokenKind::Literal
    } else {
        TokenKind::Ident
    }
}

/// Whether the text begins with a character that may begin an identifier.
fn begins_word(text: &[u8]) -> bool
    ensures yes { result ≡ true → BeginsWith is_identifier_start text.now }
    ensures no { result ≡ false → BeginsWith is_identifier_start text.now → ⊥ }
{
    match character_at(text) {
        Some(first) => is_identifier_start(first),
        None => false,
    }
}

/// An identifier or a reserved word.
fn word(text: &[u8]) -> Front
    requires { (0 < length text.now) × (begins_other_piece (slice_index text.now 0) ≡ false) }
    ensures { IsFrontOf text.now result }
{
    if !begins_word(text) {
        return Front::Refused(Code::BadByte);
    }
    let len = word_len(text);
    let word = &text[..len];
    if is_left_out(word) {
        Front::Refused(Code::LeftOutWord)
    } else {
        Front::Piece(Some(word_kind(word)), len)
    }
}

/// What the text begins with.
pub fn front_of(text: &[u8]) -> Front
    requires { 0 < length text.now }
    ensures { IsFrontOf text.now result }
{
    let first = byte_at(text, 0);
    if is_blank(first) {
        Front::Piece(None, 1)
    } else if first.is_ascii_digit() {
        number(text)
    } else if first == b'\'' {
        character(text)
    } else if first == b'"' {
        string(text)
    } else if first == b'/' {
        slash(text)
    } else if first == b'.' {
        point(text)
    } else if separator_len(text).max(operator_len(text)) == 0 {
        word(text)
    } else {
        symbol(text)
    }
}
