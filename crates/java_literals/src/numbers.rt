//! Integer literals.

ghost use Rattle.std.specs.Prelude.{◌≡◌, ◌+◌, ◌-◌, ◌*◌, ◌^◌, ◌==◌, ◌||◌, ◌≤◌, length, take, drop, nat_lt, slice_index, if◌then◌else◌, Some, None};
ghost use Rattle.std.specs.Char.{digit_value};
ghost use Rattle.java_lexer.specs.Literals.{has_prefix, is_long, value_from};
ghost use Rattle.java_literals.specs.Numbers.{base_of, decimal_int, decimal_long, digits_of, int_of, int_value, integer_value, long_of, long_value, number_of};

use crate::values::LiteralValue;

// The byte at a place of the text, and 0 past its end.
fn byte_at(text: &[u8], place: usize) -> u8
    ensures { result ≡ slice_index text.now place }
{
    text.get(place).copied().unwrap_or(0)
}

// Whether the text begins with a zero and one of two letters.
fn has_prefix(text: &[u8], lower: u8, upper: u8) -> bool
    ensures { result ≡ has_prefix lower upper text.now }
{
    byte_at(text, 0) == b'0' && (byte_at(text, 1) == lower || byte_at(text, 1) == upper)
}

fn base_of(text: &[u8]) -> u8
    ensures { result ≡ base_of text.now }
{
    if has_prefix(text, b'x', b'X') {
        16
    } else if has_prefix(text, b'b', b'B') {
        2
    } else if byte_at(text, 0) == b'0' {
        8
    } else {
        10
    }
}

fn digits_of(text: &[u8]) -> &[u8]
    ensures { result.now ≡ digits_of text.now }
{
    if has_prefix(text, b'x', b'X') || has_prefix(text, b'b', b'B') {
        text.get(2..).unwrap_or(&[])
    } else {
        text
    }
}

// The number with one more digit behind it, where it has at most 64 bits. An `_` changes nothing.
fn with_digit(number: u64, base: u8, byte: u8) -> Option<u64>
    ensures { result ≡ (let next = (if byte == 95 then number else number * base + digit_value byte) in if nat_lt next (2 ^ 64) then Some next else None) }
{
    if byte == b'_' {
        return Some(number);
    }
    let digit = char::from(byte).to_digit(36).unwrap_or(36);
    number
        .checked_mul(u64::from(base))?
        .checked_add(u64::from(digit))
}

// The number that the digits spell, where it has 64 bits.
fn number_of(base: u8, digits: &[u8]) -> Option<u64>
    requires { 1 ≤ base }
    ensures { result ≡ number_of base digits.now }
{
    let mut number = 0;
    'each: for byte in digits {
        match with_digit(number, base, *byte) {
            Some(next) => number = next,
            None => return None,
        }
    }
    Some(number)
}

fn decimal_int(number: u64) -> Option<LiteralValue>
    ensures { result ≡ decimal_int number }
{
    if number < 1 << 31 {
        Some(LiteralValue::Int(number as i64))
    } else if number == 1 << 31 {
        Some(LiteralValue::IntLimit)
    } else {
        None
    }
}

fn int_of(base: u8, number: u64) -> Option<LiteralValue>
    ensures { result ≡ int_of base number }
{
    if base == 10 {
        decimal_int(number)
    } else if number < 1 << 32 {
        let bits = number as u32;
        Some(LiteralValue::Int(i64::from(bits.cast_signed())))
    } else {
        None
    }
}

fn decimal_long(number: u64) -> Option<LiteralValue>
    ensures { result ≡ decimal_long number }
{
    if number < 1 << 63 {
        Some(LiteralValue::Long(number as i64))
    } else if number == 1 << 63 {
        Some(LiteralValue::LongLimit)
    } else {
        None
    }
}

fn long_of(base: u8, number: u64) -> Option<LiteralValue>
    ensures { result ≡ long_of base number }
{
    if base == 10 {
        decimal_long(number)
    } else {
        Some(LiteralValue::Long(number.cast_signed()))
    }
}

fn int_value(text: &[u8]) -> Option<LiteralValue>
    ensures { result ≡ int_value text.now }
{
    let base = base_of(text);
    match number_of(base, digits_of(text)) {
        Some(number) => int_of(base, number),
        None => None,
    }
}

fn long_value(text: &[u8]) -> Option<LiteralValue>
    ensures { result ≡ long_value text.now }
{
    let base = base_of(text);
    match number_of(base, digits_of(text)) {
        Some(number) => long_of(base, number),
        None => None,
    }
}

// Whether the text ends with the suffix of a `long` literal.
fn is_long(text: &[u8]) -> bool
    ensures { result ≡ is_long text.now }
{
    let last = byte_at(text, text.len().saturating_sub(1));
    last == b'L' || last == b'l'
}

/// What an integer literal means; none where the digits spell a number that its type does not have.
pub fn integer_value(text: &[u8]) -> Option<LiteralValue>
    ensures { result ≡ integer_value text.now }
{
    if is_long(text) {
        long_value(&text[..text.len().saturating_sub(1)])
    } else {
        int_value(text)
    }
}
