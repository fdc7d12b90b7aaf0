//! Decimal numbers, and the parts of a text.

ghost use Rattle.std.specs.Prelude.{◌≡◌, ◌+◌, ◌*◌, ◌<◌, ◌==◌, ◌∷◌, [], min, false, length, IfSome, MatchOption};
ghost use Rattle.std.specs.Char.{digit_value, is_ascii_digit};
ghost use Rattle.std.specs.List.{list_all, position};
ghost use Rattle.flow_certs.specs.Forms.{is_none};
ghost use Rattle.flow_certs.specs.Numbers.{digits_from, is_numeral, largest, number_below, number_in, parts};

// The place of the first byte of this value.
fn first_of(text: &[u8], at: u8) -> Option<usize>
    ensures place { result ≡ position (λ b. b == at) text.now }
    ensures within { IfSome result (λ place. place < length text.now) }
{
    text.iter().position(|byte| *byte == at)
}

/// What stands before the first byte of this value, and what stands behind it; none where the text has no such byte.
#[tactic(auto, using(crate::proofs::CutLaws::cut_at, crate::proofs::CutLaws::cut_end, crate::proofs::CutLaws::cut_more))]
pub(crate) fn cut(text: &[u8], at: u8) -> Option<(&[u8], &[u8])>
    ensures parts { MatchOption result (parts at text.now ≡ text.now ∷ []) (λ x. parts at text.now ≡ x.0.now ∷ parts at x.1.now) }
    ensures more { IfSome result (λ x. is_none (parts at x.1.now) ≡ false) }
    ensures shorter { IfSome result (λ x. length x.1.now < length text.now) }
{
    match first_of(text, at) {
        None => None,
        Some(place) => Some((&text[..place], &text[place + 1..])),
    }
}

// Whether each byte is a decimal digit.
fn has_digits_only(text: &[u8]) -> bool
    ensures { result ≡ list_all (λ b. is_ascii_digit b) text.now }
{
    text.iter().all(|byte| byte.is_ascii_digit())
}

// Whether the text is a decimal number without a zero in front of other digits.
fn is_numeral(text: &[u8]) -> bool
    ensures { result ≡ is_numeral text.now }
{
    match text {
        [] => false,
        [first] => first.is_ascii_digit(),
        [first, ..] => *first != b'0' && has_digits_only(text),
    }
}

// The number with one more digit behind it.
fn with_digit(number: usize, byte: u8) -> usize
    ensures { result ≡ min (number * 10 + digit_value byte) largest }
{
    let digit = char::from(byte).to_digit(36).unwrap_or(36);
    number.saturating_mul(10).saturating_add(digit as usize)
}

// The number that the digits spell.
#[tactic(auto, using(crate::proofs::NumberLaws::next_digit))]
fn spelled(text: &[u8]) -> usize
    ensures { result ≡ min (digits_from 0 text.now) largest }
{
    let mut number = 0;
    'each: for byte in text {
        number = with_digit(number, *byte);
    }
    number
}

/// The decimal number that a text is; none where the text is something else. What has no room counts as the largest number.
pub(crate) fn number_in(text: &[u8]) -> Option<usize>
    ensures { result ≡ number_in text.now }
{
    if is_numeral(text) {
        Some(spelled(text))
    } else {
        None
    }
}

/// The decimal number below the limit that a text is; none where the text is something else.
pub(crate) fn number_below(limit: usize, text: &[u8]) -> Option<usize>
    ensures number { result ≡ number_below limit text.now }
    ensures below { IfSome result (λ n. n < limit) }
{
    let number = number_in(text)?;
    if number < limit { Some(number) } else { None }
}
