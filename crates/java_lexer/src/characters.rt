ghost use Rattle.std.specs.Prelude.{◌≡◌, ◌++◌, ◌<◌, ◌≤◌, ◌^◌, ℕ, length, take, drop, MatchOption};
ghost use Rattle.std.specs.Char.{IsScalar, encode_utf8, len_utf8};
ghost use Rattle.std.specs.Str.{IsUtf8, StartsWithNoChar};
ghost use Rattle.java_lexer.specs.Characters.{is_blank, is_line_end, is_identifier_start, is_identifier_part, BeginsWith, IsRun};

/// Whether the byte is white space (JLS 3.6).
pub fn is_blank(byte: u8) -> bool
    ensures { result ≡ is_blank byte }
{
    byte == b' ' || byte == b'\t' || byte == 12 || is_line_end(byte)
}

/// Whether the byte ends a line (JLS 3.4).
pub fn is_line_end(byte: u8) -> bool
    ensures { result ≡ is_line_end byte }
{
    byte == b'\n' || byte == b'\r'
}

/// Whether an identifier may begin with the character (JLS 3.8).
pub fn is_identifier_start(character: char) -> bool
    ensures { result ≡ is_identifier_start character }
{
    unicode_ident::is_xid_start(character) || character == '_' || character == '$'
}

/// Whether an identifier may go on with the character (JLS 3.8).
pub fn is_identifier_part(character: char) -> bool
    ensures { result ≡ is_identifier_part character }
{
    unicode_ident::is_xid_continue(character) || character == '$'
}

/// What the text has behind its first bytes.
pub fn behind(text: &[u8], len: usize) -> &[u8]
    requires { len ≤ length text.now }
    ensures { result.now ≡ drop len text.now }
{
    &text[len..]
}

/// The longest front of the text, of four bytes at most, that is UTF-8.
fn utf8_front(text: &[u8]) -> &str
    ensures front { (length result.now ≤ length text.now) × (result.now ≡ take (length result.now) text.now) }
    ensures utf8 { IsUtf8 result.now }
    ensures longest { length result.now ≡ 0 → StartsWithNoChar text.now }
{
    let front = &text[..text.len().min(4)];
    match str::from_utf8(front) {
        Ok(spelled) => spelled,
        Err(error) => match str::from_utf8(&front[..error.valid_up_to()]) {
            Ok(spelled) => spelled,
            Err(_) => "",
        },
    }
}

/// The character that the text begins with, or None where none does: at the end, and where it is not UTF-8.
pub fn character_at(text: &[u8]) -> Option<char>
    ensures { MatchOption result (StartsWithNoChar text.now) (λ c. IsScalar c × (len_utf8 c ≤ length text.now) × (text.now ≡ encode_utf8 c ++ drop (len_utf8 c) text.now)) }
{
    utf8_front(text).chars().next()
}

/// How many bytes of identifier characters the text begins with.
pub fn word_len(text: &[u8]) -> usize
    ensures within { result ≤ length text.now }
    ensures run { IsRun is_identifier_part (take result text.now) }
    ensures ends { BeginsWith is_identifier_part (drop result text.now) → ⊥ }
{
    let mut len = 0;
    while let Some(character) = character_at(behind(text, len)) {
        if !is_identifier_part(character) {
            break;
        }
        len += character.len_utf8();
    }
    len
}
