//! The choices of a run.

ghost use Rattle.std.specs.Prelude.{◌≡◌, ◌<◌, ◌^◌, ◌-◌, length, IfOk, option_map, IsSomeAnd};
ghost use Rattle.choices_file.specs.Files.{IsRead, IsRefused};
ghost use Rattle.command_inputs.specs.Halts.{HaltsBy, IfHalted};
ghost use Rattle.command_inputs.specs.Inputs.{text_of};
ghost use Rattle.run_inputs.specs.Runs.{AreChoices, IsChoicesAnswer, IsChoicesLine, IsDefault, IsShortFile};

use choices_file::read_choices;
use command_answers::{Answer, Outcome, refusal};
use command_inputs::{Halt, NamedText};
use rlc_base::{Refusal, Stop};
use std::alloc::Global;
use stub_conduct::Choices;

/// The number by which a refusal of the choices file names it. Its line has the file's name.
const CHOICES_FILE: u32 = 0;

// The answer where a line of the choices file is refused.
fn refused_choices(alloc: Global, file: NamedText<'_>, cause: Refusal) -> Halt
    requires { IsRefused 0 file.bytes.now cause }
    ensures { HaltsBy result (IsChoicesLine (text_of file.entry)) }
{
    let outcome = Outcome::Refused;
    match refusal(alloc, file.name, cause) {
        Ok(text) => Halt::Answered(Answer { outcome, text }),
        Err(_) => Halt::NoMemory,
    }
}

// The choices that a file says.
fn choices_in(alloc: Global, file: NamedText<'_>) -> Result<Choices, Halt>
    requires { length file.bytes.now < 2 ^ 32 - 1 }
    ensures read { IfOk result (IsRead file.entry.bytes.now) }
    ensures refused { IfHalted result (IsChoicesLine (text_of file.entry)) }
{
    match read_choices(alloc, CHOICES_FILE, file.bytes) {
        Ok(choices) => Ok(choices),
        Err(Stop::Refused(cause)) => Err(refused_choices(alloc, file, cause)),
        Err(Stop::TooMuch(_)) => unreachable!(),
        Err(Stop::NoMemory) => Err(Halt::NoMemory),
    }
}

/// The choices that the choices file says, or none where there is no such file.
///
/// # Errors
///
/// The answer `Refused` with the line of the first wrong line, as by `read_choices`.
pub fn choices_for(alloc: Global, file: Option<NamedText<'_>>) -> Result<Choices, Halt>
    requires { IsShortFile (option_map text_of file) }
    ensures read { IfOk result (AreChoices (option_map text_of file.entry)) }
    ensures refused { IfHalted result (IsChoicesAnswer (option_map text_of file.entry)) }
{
    match file {
        Some(file) => choices_in(alloc, file),
        None => Ok(Choices {
            args: 0,
            list: Vec::new(alloc),
        }),
    }
}
