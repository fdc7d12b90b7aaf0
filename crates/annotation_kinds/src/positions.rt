//! The positions of a signature that texts of annotations name.

ghost use Rattle.std.specs.Prelude.{◌≡◌, nat_eq, nat_lt, slice_index};
ghost use Rattle.std.specs.List.{list_all, starts_with};
ghost use Rattle.std.specs.Char.{is_ascii_digit};
ghost use Rattle.annotation_kinds.specs.Positions.{is_decimal, is_position};

// Whether the first byte is above that of the digit 0.
fn begins_above_zero(digits: &[u8]) -> bool
    ensures { result ≡ nat_lt 48 (slice_index digits.now 0) }
{
    match digits.first() {
        None => false,
        Some(digit) => *digit > b'0',
    }
}

fn are_digits(digits: &[u8]) -> bool
    ensures { result ≡ list_all is_ascii_digit digits.now }
{
    digits.iter().all(|digit| digit.is_ascii_digit())
}

/// Whether the digits are a number in decimal, from 1 on and without leading zeros.
pub fn is_decimal(digits: &[u8]) -> bool
    ensures { result ≡ is_decimal digits.now }
{
    are_digits(digits) && begins_above_zero(digits)
}

/// Whether the text names a position of a signature: `this`, or `#k` with a number k in decimal from 1 on.
pub fn is_position(text: &[u8]) -> bool
    ensures { result ≡ is_position text.now }
{
    if text == b"this".as_slice() {
        return true;
    }
    match text {
        [b'#', digits @ ..] => is_decimal(digits),
        _ => false,
    }
}
