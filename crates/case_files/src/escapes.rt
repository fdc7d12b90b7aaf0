// The escapes of a section: `\\`, `\xHH`, `\` at the end of a line, `\N*(TEXT\)` for N times TEXT, and in TEXT `\#` for the
// number of the repetition, from 0.

ghost use Rattle.std.specs.Prelude.{◌≡◌, ◌<◌, IsTrue, IfOk, IfErr};
ghost use Rattle.case_files.specs.Escapes.{hex_pair, hex_value, is_plain};
ghost use Rattle.case_files.specs.Faults.{IsEscapeFault};

use crate::faults::FormFail;
use std::alloc::Global;

// A repetition that is not closed yet.
#[derive(Clone, Copy)]
struct Repetition<'a> {
    count: u32,
    done: u32,
    // What stands behind its `(`.
    text: &'a [u8],
}

// The value of a hexadecimal digit.
fn hex_digit(byte: u8) -> Result<u8, FormFail>
    ensures value { IfOk result (λ digit. hex_value byte ≡ Some digit) }
    ensures small { IfOk result (λ digit. digit < 16) }
    ensures none { IfErr result (λ fail. hex_value byte ≡ None) }
    ensures fault { IfErr result IsEscapeFault }
{
    match byte {
        b'0'..=b'9' => Ok(byte - b'0'),
        b'a'..=b'f' => Ok(byte - b'a' + 10),
        b'A'..=b'F' => Ok(byte - b'A' + 10),
        _ => Err(FormFail::Escape),
    }
}

// The byte of two hexadecimal digits.
fn hex_byte(high: u8, low: u8) -> Result<u8, FormFail>
    ensures value { IfOk result (λ byte. hex_pair (hex_value high) (hex_value low) ≡ Some byte) }
    ensures none { IfErr result (λ fail. hex_pair (hex_value high) (hex_value low) ≡ None) }
    ensures fault { IfErr result IsEscapeFault }
{
    Ok(hex_digit(high)? * 16 + hex_digit(low)?)
}

// The number that the text begins with, and what stands behind the `*(` that follows it.
fn repetition_head(text: &[u8]) -> Result<Repetition<'_>, FormFail>
    ensures { IfErr result IsEscapeFault }
{
    let mut count: u32 = 0;
    let mut rest = text;
    for _ in 0..text.len() {
        match rest {
            [digit @ b'0'..=b'9', behind @ ..] => {
                count = count
                    .saturating_mul(10)
                    .saturating_add(u32::from(*digit - b'0'));
                rest = behind;
            }
            [b'*', b'(', behind @ ..] if 0 < count => {
                return Ok(Repetition {
                    count,
                    done: 0,
                    text: behind,
                });
            }
            _ => return Err(FormFail::Escape),
        }
    }
    Err(FormFail::Escape)
}

// Where to go on behind the `\)` of the innermost repetition.
fn end_repetition<'a>(
    behind: &'a [u8],
    open: &mut Vec<Repetition<'a>>,
) -> Result<&'a [u8], FormFail>
    ensures { IfErr result IsEscapeFault }
{
    let Some(mut repetition) = open.pop() else {
        return Err(FormFail::Escape);
    };
    repetition.done = repetition.done.saturating_add(1);
    if repetition.count <= repetition.done {
        return Ok(behind);
    }
    open.push(repetition)?;
    Ok(repetition.text)
}

// The number in decimal digits.
fn write_number(number: u32, out: &mut Vec<u8>) -> Result<(), FormFail>
    ensures { IfErr result IsEscapeFault }
{
    let alloc = *out.allocator();
    let text = format!(in alloc; "{number}")?;
    out.extend_from_slice(text.as_bytes())?;
    Ok(())
}

// Reads one escape, behind its `\`, and answers where to go on.
fn escape<'a>(
    text: &'a [u8],
    open: &mut Vec<Repetition<'a>>,
    out: &mut Vec<u8>,
) -> Result<&'a [u8], FormFail>
    ensures { IfErr result IsEscapeFault }
{
    match text {
        [b'\\', behind @ ..] => {
            out.push(b'\\')?;
            Ok(behind)
        }
        [b'\n', behind @ ..] => Ok(behind),
        [b'x', high, low, behind @ ..] => {
            out.push(hex_byte(*high, *low)?)?;
            Ok(behind)
        }
        [b'#', behind @ ..] => {
            let innermost = open.last().ok_or(FormFail::Escape)?;
            write_number(innermost.done, out)?;
            Ok(behind)
        }
        [b')', behind @ ..] => end_repetition(behind, open),
        _ => {
            let repetition = repetition_head(text)?;
            open.push(repetition)?;
            Ok(repetition.text)
        }
    }
}

/// What a text with escapes stands for. A text with no `\` stands for itself.
///
/// # Errors
///
/// `Escape` where a `\` begins none of the escapes or a repetition is not closed. Memory may run out.
pub fn decode(alloc: Global, text: &[u8]) -> Result<Vec<u8>, FormFail>
    ensures plain { IfOk result (λ out. IsTrue (is_plain text.now) → out.items ≡ text.now) }
    ensures fault { IfErr result IsEscapeFault }
{
    let mut out = Vec::new(alloc);
    let mut open = Vec::new(alloc);
    let mut rest = text;
    for _ in 0..u64::MAX {
        match rest {
            [] if open.is_empty() => return Ok(out),
            [] => return Err(FormFail::Escape),
            [b'\\', behind @ ..] => rest = escape(behind, &mut open, &mut out)?,
            [byte, behind @ ..] => {
                out.push(*byte)?;
                rest = behind;
            }
        }
    }
    Err(FormFail::Escape)
}
