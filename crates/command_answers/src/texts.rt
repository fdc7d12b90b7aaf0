//! The texts of refusals and of failed reads.

ghost use Rattle.std.specs.Prelude.{◌≡◌, IfOk};
ghost use Rattle.command_answers.specs.Texts.{placeless_text, read_fault_text, refusal_text};

use rlc_base::{Code, NoMemory, Pos, Refusal, Text};
use std::alloc::Global;

/// The line `read fault NAME`, of a file that could not be read.
pub fn read_fault(alloc: Global, name: &str) -> Result<Text, NoMemory>
    ensures { IfOk result (λ text. text ≡ read_fault_text name.now) }
{
    let mut text = Text::new(alloc);
    text.push_bytes(b"read fault ")?;
    text.push_bytes(name.as_bytes())?;
    text.push_bytes(b"\n")?;
    Ok(text)
}

/// The line `FILE: NUMBER NAME`, of a refusal that has no place.
pub fn placeless(alloc: Global, name: &str, code: Code) -> Result<Text, NoMemory>
    ensures { IfOk result (λ text. text ≡ placeless_text name.now code) }
{
    let number = code.number();
    let cause = code.name();
    let text = format!(in alloc; "{name}: {number} {cause}\n")?;
    Ok(Text::from_bytes(text.into_bytes()))
}

/// The line `FILE:LINE:COL: NUMBER NAME`, of a refusal at a place.
pub fn refusal(alloc: Global, name: &str, refusal: Refusal) -> Result<Text, NoMemory>
    ensures { IfOk result (λ text. text ≡ refusal_text name.now refusal) }
{
    let Refusal { code, pos } = refusal;
    let Pos { line, col, .. } = pos;
    let number = code.number();
    let cause = code.name();
    let text = format!(in alloc; "{name}:{line}:{col}: {number} {cause}\n")?;
    Ok(Text::from_bytes(text.into_bytes()))
}
