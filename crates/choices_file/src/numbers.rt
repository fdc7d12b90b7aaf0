//! Decimal numbers of a line.

ghost use Rattle.std.specs.Prelude.{◌≡◌, ◌+◌, ◌*◌, ◌^◌, ℤ, pos, neg_ℤ, nat_le, nat_lt, Some, None, if◌then◌else◌};
ghost use Rattle.std.specs.Char.{digit_value, is_ascii_digit};
ghost use Rattle.std.specs.List.{list_all};
ghost use Rattle.choices_file.specs.Numbers.{digits_from, is_numeral, negated, number_up_to, up_to, value_in};

// Whether each byte is a decimal digit.
fn has_digits_only(text: &[u8]) -> bool
    ensures { result ≡ list_all (λ b. is_ascii_digit b) text.now }
{
    text.iter().all(|byte| byte.is_ascii_digit())
}

// Whether the text is a decimal number without a zero in front of other digits.
fn is_numeral(text: &[u8]) -> bool
    ensures { result ≡ is_numeral text.now }
{
    match text {
        [] => false,
        [first] => first.is_ascii_digit(),
        [first, ..] => *first != b'0' && has_digits_only(text),
    }
}

// The number with one more digit behind it, where it has at most 64 bits.
fn with_digit(number: u64, byte: u8) -> Option<u64>
    ensures { result ≡ (let next = number * 10 + digit_value byte in if nat_lt next (2 ^ 64) then Some next else None) }
{
    let digit = char::from(byte).to_digit(36).unwrap_or(36);
    number.checked_mul(10)?.checked_add(u64::from(digit))
}

// The number that the digits spell, where it is not past the largest.
fn spelled(text: &[u8], largest: u64) -> Option<u64>
    ensures { result ≡ up_to largest (digits_from 0 text.now) }
{
    let mut number = 0;
    'each: for byte in text {
        match with_digit(number, *byte) {
            Some(next) => number = next,
            None => return None,
        }
    }
    if number <= largest {
        Some(number)
    } else {
        None
    }
}

/// The decimal number that a text is, up to the largest; none where the text is something else.
pub fn number_up_to(text: &[u8], largest: u64) -> Option<u64>
    ensures { result ≡ number_up_to largest text.now }
{
    if is_numeral(text) {
        spelled(text, largest)
    } else {
        None
    }
}

// The number below zero of this magnitude, where it has 64 bits.
fn negated(magnitude: u64) -> Option<i64>
    ensures { result ≡ negated magnitude }
{
    0i64.checked_sub_unsigned(magnitude)
}

/// The number of 64 bits that a text is, with `-` for one below zero; none where the text is something else.
pub fn value_in(text: &[u8]) -> Option<i64>
    ensures { result ≡ value_in text.now }
{
    match text {
        [b'-', digits @ ..] => negated(number_up_to(digits, 1 << 63)?),
        digits => Some(number_up_to(digits, (1 << 63) - 1)? as i64),
    }
}
