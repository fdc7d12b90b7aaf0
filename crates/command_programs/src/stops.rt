//! The answers where a layer stops.

ghost use Rattle.std.specs.Prelude.{◌≡◌, IfOk};
ghost use Rattle.program_texts.specs.Texts.{file_name};
ghost use Rattle.command_answers.specs.Texts.{refusal_text};
ghost use Rattle.command_inputs.specs.Halts.{HaltsBy};
ghost use Rattle.command_programs.specs.Refusals.{IsLine, IsStopAnswer};

use command_answers::{Answer, Outcome};
use command_inputs::Halt;
use program_texts::{put_number, put_place};
use rlc_base::{NoMemory, Refusal, Stop, Text};
use std::alloc::Global;

// The line `FILE:LINE:COL: NUMBER NAME`.
fn refusal_line(alloc: Global, names: &[Text], refusal: Refusal) -> Result<Text, NoMemory>
    ensures { IfOk result (λ text. text ≡ refusal_text (file_name names.now refusal.pos.file) refusal) }
{
    let mut text = Text::new(alloc);
    put_place(alloc, names, refusal.pos, &mut text)?;
    text.push_bytes(b": ")?;
    put_number(alloc, u64::from(refusal.code.number()), &mut text)?;
    text.push_bytes(b" ")?;
    text.push_bytes(refusal.code.name().as_bytes())?;
    text.push_bytes(b"\n")?;
    Ok(text)
}

// The answer of this outcome at a place.
fn halt_at(alloc: Global, names: &[Text], outcome: Outcome, refusal: Refusal) -> Halt
    ensures { HaltsBy result (IsLine names.now outcome refusal) }
{
    match refusal_line(alloc, names, refusal) {
        Ok(text) => Halt::Answered(Answer { outcome, text }),
        Err(_) => Halt::NoMemory,
    }
}

/// The answer where a layer stops: `Refused` or `Limit` with the line `FILE:LINE:COL: NUMBER NAME`. `names` are the names of the
/// files by their numbers.
pub fn halt_of(alloc: Global, names: &[Text], stop: Stop) -> Halt
    ensures { HaltsBy result (IsStopAnswer names.now stop) }
{
    match stop {
        Stop::Refused(refusal) => halt_at(alloc, names, Outcome::Refused, refusal),
        Stop::TooMuch(refusal) => halt_at(alloc, names, Outcome::Limit, refusal),
        Stop::NoMemory => Halt::NoMemory,
    }
}
