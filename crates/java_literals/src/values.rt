//! The values of literals.

ghost use Rattle.std.specs.Prelude.{◌≡◌, ◌-◌, length, take, drop, slice_index};
ghost use Rattle.java_literals.specs.Values.{literal_value, within_quotes, word_value};

use crate::characters::character_value;
use crate::numbers::integer_value;

/// What a literal means (JLS 3.10).
#[derive(Clone, Copy, Debug, PartialEq, Eq)]
pub enum LiteralValue {
    /// An `int`.
    Int(i64),
    /// A `long`.
    Long(i64),
    /// The decimal 2147483648, which stands under a minus alone (JLS 3.10.1).
    IntLimit,
    /// The decimal 9223372036854775808 of type `long`, which stands under a minus alone.
    LongLimit,
    /// A UTF-16 code unit.
    Character(u16),
    /// `true` or `false`.
    Boolean(bool),
    /// A string literal.
    Text,
    /// The null literal.
    Null,
}

// What stands between a literal's quotes.
pub(crate) fn within_quotes(text: &[u8]) -> &[u8]
    ensures { result.now ≡ within_quotes text.now }
{
    match text {
        [_first, inner @ .., _last] => inner,
        _short => &[],
    }
}

// The first byte of a literal, and 0 where it has none.
pub(crate) fn first_byte(text: &[u8]) -> u8
    ensures { result ≡ slice_index text.now 0 }
{
    text.first().copied().unwrap_or(0)
}

fn word_value(text: &[u8]) -> Option<LiteralValue>
    ensures { result ≡ word_value text.now }
{
    if text == b"true".as_slice() {
        Some(LiteralValue::Boolean(true))
    } else if text == b"false".as_slice() {
        Some(LiteralValue::Boolean(false))
    } else if text == b"null".as_slice() {
        Some(LiteralValue::Null)
    } else {
        integer_value(text)
    }
}

/// What the literal of this text means, as it stands in the source with its quotes; none for a text that is no literal.
pub fn literal_value(text: &[u8]) -> Option<LiteralValue>
    ensures { result ≡ literal_value text.now }
{
    match first_byte(text) {
        b'"' => Some(LiteralValue::Text),
        b'\'' => character_value(within_quotes(text)).map(LiteralValue::Character),
        _ => word_value(text),
    }
}
