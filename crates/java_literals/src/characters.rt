//! Character literals.

ghost use Rattle.std.specs.Prelude.{◌≡◌, ◌<◌, IfSome};
ghost use Rattle.java_lexer.specs.Literals.{is_continuation, is_octal_digit};
ghost use Rattle.java_literals.specs.Characters.{character_value, code_unit, escape_of, escape_value, low_bits, octal, unit_of};

// What a letter or sign behind a backslash stands for.
pub(crate) fn escape_of(byte: u8) -> Option<u16>
    ensures value { result ≡ escape_of byte }
    ensures small { IfSome result (λ c. c < 128) }
{
    match byte {
        b'b' => Some(8),
        b't' => Some(9),
        b'n' => Some(10),
        b'f' => Some(12),
        b'r' => Some(13),
        b's' => Some(32),
        b'"' => Some(34),
        b'\'' => Some(39),
        b'\\' => Some(92),
        _ => None,
    }
}

// Whether the byte is one of `0` to `7`.
pub(crate) fn is_octal_digit(byte: u8) -> bool
    ensures { result ≡ is_octal_digit byte }
{
    b'0' <= byte && byte <= b'7'
}

fn octal(byte: u8) -> u16
    ensures { result ≡ octal byte }
{
    u16::from(byte.saturating_sub(b'0'))
}

// What stands behind a backslash.
fn escape_value(bytes: &[u8]) -> Option<u16>
    ensures { result ≡ escape_value bytes.now }
{
    match bytes {
        [a] if is_octal_digit(*a) => Some(octal(*a)),
        [a] => escape_of(*a),
        [a, b] if is_octal_digit(*a) && is_octal_digit(*b) => Some(octal(*a) * 8 + octal(*b)),
        [a, b, c] if *a <= b'3' && is_octal_digit(*a) && is_octal_digit(*b) && is_octal_digit(*c) =>
            { Some(octal(*a) * 64 + octal(*b) * 8 + octal(*c)) }
        _ => None,
    }
}

// Whether the byte goes on with a character in UTF-8.
fn is_continuation(byte: u8) -> bool
    ensures { result ≡ is_continuation byte }
{
    128 <= byte && byte < 192
}

fn low_bits(byte: u8) -> u32
    ensures { result ≡ low_bits byte }
{
    u32::from(byte.saturating_sub(128))
}

// The number, where one code unit has it.
fn unit_of(number: u32) -> Option<u16>
    ensures { result ≡ unit_of number }
{
    if number < 65536 {
        Some(number as u16)
    } else {
        None
    }
}

// The code unit of one character.
fn code_unit(bytes: &[u8]) -> Option<u16>
    ensures { result ≡ code_unit bytes.now }
{
    match bytes {
        [a] if *a < 128 => Some(u16::from(*a)),
        [a, b] if 192 <= *a && *a < 224 && is_continuation(*b) => {
            unit_of(u32::from(a.saturating_sub(192)) * 64 + low_bits(*b))
        }
        [a, b, c] if 224 <= *a && *a < 240 && is_continuation(*b) && is_continuation(*c) => {
            unit_of(u32::from(a.saturating_sub(224)) * 4096 + low_bits(*b) * 64 + low_bits(*c))
        }
        _ => None,
    }
}

/// The code unit that stands between the quotes of a character literal; none where that is neither an escape nor one
/// character up to U+FFFF.
pub fn character_value(bytes: &[u8]) -> Option<u16>
    ensures { result ≡ character_value bytes.now }
{
    match bytes {
        [b'\\', escape @ ..] => escape_value(escape),
        _ => code_unit(bytes),
    }
}
