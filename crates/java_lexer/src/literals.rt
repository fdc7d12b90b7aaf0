ghost use Rattle.std.specs.Prelude.{◌≡◌, ◌+◌, ◌-◌, ◌*◌, ◌≤◌, ◌<◌, ◌==◌, ◌^◌, false, length, drop, nat_le, nat_lt, slice_index, if◌then◌else◌, Some, None, IfSome, ◌&&◌, ◌||◌};
ghost use Rattle.std.specs.List.{list_all};
ghost use Rattle.std.specs.Char.{digit_value, is_digit};
ghost use Rattle.java_lexer.specs.Literals.{is_digits, value_from, is_long, has_prefix, is_numeral_up_to, is_numeral, is_integer};
ghost use Rattle.java_lexer.specs.Reading.{closing_quote, has_known_escapes};
ghost use Rattle.java_lexer.specs.Literals.{is_octal_digit, is_escape, is_continuation, is_whole_escape, is_character};

use crate::characters::{behind, is_line_end};

/// The byte at a place of the text, and 0 past its end.
pub fn byte_at(text: &[u8], place: usize) -> u8
    ensures { result ≡ slice_index text.now place }
{
    text.get(place).copied().unwrap_or(0)
}

/// Whether the byte is a digit of the base.
fn is_digit(byte: u8, base: u8) -> bool
    requires lower_bound { 2 ≤ base }
    requires upper_bound { base ≤ 36 }
    ensures { result ≡ is_digit byte base }
{
    char::from(byte).is_digit(u32::from(base))
}

/// Whether each byte of the text is a digit of the base or `_`.
fn has_digits_only(text: &[u8], base: u8) -> bool
    requires lower_bound { 2 ≤ base }
    requires upper_bound { base ≤ 36 }
    ensures { result ≡ list_all (λ b. is_digit b base || b == 95) text.now }
{
    text.iter()
        .all(|byte| is_digit(*byte, base) || *byte == b'_')
}

/// Whether the text is digits of the base, with `_` between them only.
fn is_digits(text: &[u8], base: u8) -> bool
    requires lower_bound { 2 ≤ base }
    requires upper_bound { base ≤ 36 }
    ensures { result ≡ is_digits base text.now }
{
    has_digits_only(text, base)
        & is_digit(byte_at(text, 0), base)
        & is_digit(byte_at(text, text.len().saturating_sub(1)), base)
}

/// The number with one more digit behind it, or None where it has more than 64 bits. An `_` changes nothing.
fn with_digit(number: u64, base: u8, byte: u8) -> Option<u64>
    ensures { result ≡ (let next = (if byte == 95 then number else number * base + digit_value byte) in if nat_lt next (2 ^ 64) then Some next else None) }
{
    if byte == b'_' {
        return Some(number);
    }
    let digit = char::from(byte).to_digit(36).unwrap_or(36);
    number
        .checked_mul(u64::from(base))?
        .checked_add(u64::from(digit))
}

/// Whether the digits of the base spell a number up to the largest.
fn is_up_to(text: &[u8], base: u8, largest: u64) -> bool
    requires { 1 ≤ base }
    ensures { result ≡ nat_le (value_from base 0 text.now) largest }
{
    let mut number = 0;
    for byte in text {
        match with_digit(number, base, *byte) {
            Some(next) => number = next,
            None => return false,
        }
    }
    number <= largest
}

/// Whether the text is digits of the base that spell a number up to the largest.
fn is_numeral_up_to(text: &[u8], base: u8, largest: u64) -> bool
    requires lower_bound { 2 ≤ base }
    requires upper_bound { base ≤ 36 }
    ensures { result ≡ is_numeral_up_to base largest text.now }
{
    is_digits(text, base) && is_up_to(text, base, largest)
}

/// Whether the text begins with a zero and one of two letters.
fn has_prefix(text: &[u8], lower: u8, upper: u8) -> bool
    ensures { result ≡ has_prefix lower upper text.now }
{
    byte_at(text, 0) == b'0' && (byte_at(text, 1) == lower || byte_at(text, 1) == upper)
}

/// Whether the text is a numeral without a suffix, up to the largest of its base.
fn is_numeral(text: &[u8], largest_decimal: u64, largest: u64) -> bool
    ensures { result ≡ is_numeral largest_decimal largest text.now }
{
    if has_prefix(text, b'x', b'X') {
        is_numeral_up_to(behind(text, text.len().min(2)), 16, largest)
    } else if has_prefix(text, b'b', b'B') {
        is_numeral_up_to(behind(text, text.len().min(2)), 2, largest)
    } else if byte_at(text, 0) == b'0' {
        is_numeral_up_to(text, 8, largest)
    } else {
        is_numeral_up_to(text, 10, largest_decimal)
    }
}

/// Whether the text ends with the suffix of a `long` literal.
pub fn is_long(text: &[u8]) -> bool
    ensures { result ≡ is_long text.now }
{
    let last = byte_at(text, text.len().saturating_sub(1));
    last == b'L' || last == b'l'
}

/// Whether the text is an integer literal of the subset (JLS 3.10.1).
pub fn is_integer(text: &[u8]) -> bool
    ensures { result ≡ is_integer text.now }
{
    if is_long(text) {
        is_numeral(&text[..text.len().saturating_sub(1)], 1 << 63, u64::MAX)
    } else {
        is_numeral(text, 1 << 31, 0xFFFF_FFFF)
    }
}

/// How many bytes stand before the quote that closes a literal on its line (JLS 3.10.4, 3.10.5), or None where it is open.
pub fn closing_quote(quote: u8, text: &[u8]) -> Option<usize>
    ensures value { result ≡ closing_quote quote false text.now }
    ensures within { IfSome result (λ n. n < length text.now) }
{
    let mut escaped = false;
    for (place, byte) in text.iter().enumerate() {
        if is_line_end(*byte) {
            return None;
        }
        if *byte == quote && !escaped {
            return Some(place);
        }
        escaped = *byte == b'\\' && !escaped;
    }
    None
}

/// Whether the byte is one of `0` to `7`.
fn is_octal_digit(byte: u8) -> bool
    ensures { result ≡ is_octal_digit byte }
{
    b'0' <= byte && byte <= b'7'
}

/// Whether an escape may have the byte behind its backslash (JLS 3.10.7).
fn is_escape(byte: u8) -> bool
    ensures { result ≡ is_escape byte }
{
    byte == b'b'
        || byte == b't'
        || byte == b'n'
        || byte == b'f'
        || byte == b'r'
        || byte == b's'
        || byte == b'"'
        || byte == b'\''
        || byte == b'\\'
        || is_octal_digit(byte)
}

/// Whether each backslash in what a string literal holds begins an escape.
pub fn has_known_escapes(text: &[u8]) -> bool
    ensures { result ≡ has_known_escapes false text.now }
{
    let mut escaped = false;
    for byte in text {
        if escaped && !is_escape(*byte) {
            return false;
        }
        escaped = *byte == b'\\' && !escaped;
    }
    true
}

/// Whether the byte goes on with a character in UTF-8.
fn is_continuation(byte: u8) -> bool
    ensures { result ≡ is_continuation byte }
{
    128 <= byte && byte < 192
}

/// Whether the text is what stands behind the backslash of a character literal.
fn is_whole_escape(text: &[u8]) -> bool
    ensures { result ≡ is_whole_escape text.now }
{
    match text {
        [one] => is_escape(*one),
        [one, two] => is_octal_digit(*one) && is_octal_digit(*two),
        [one, two, three] => {
            *one <= b'3' && is_octal_digit(*one) && is_octal_digit(*two) && is_octal_digit(*three)
        }
        _ => false,
    }
}

/// Whether the text is what stands behind the first byte of a character up to U+FFFF.
fn is_short_tail(text: &[u8]) -> bool
    ensures { result ≡ (nat_le (length text.now) 2 && list_all is_continuation text.now) }
{
    text.len() <= 2 && text.iter().all(|byte| is_continuation(*byte))
}

/// Whether the text is what a character literal may hold: one escape, or one character up to U+FFFF.
pub fn is_character(text: &[u8]) -> bool
    ensures { result ≡ is_character text.now }
{
    match text {
        [] => false,
        [first, rest @ ..] => {
            if *first == b'\\' {
                is_whole_escape(rest)
            } else {
                is_short_tail(rest)
            }
        }
    }
}
