//! The settings of a command.

ghost use Rattle.std.specs.Prelude.{◌≡◌, IfOk, option_map};
ghost use Rattle.settings_file.specs.Reading.{IsCause, IsRead};
ghost use Rattle.command_answers.specs.Texts.{placeless_text};
ghost use Rattle.command_answers.specs.declared.answers.Outcome.TheVariants as outcomes;
ghost use Rattle.command_inputs.specs.Halts.{HaltsBy, IfHalted};
ghost use Rattle.command_inputs.specs.Inputs.{text_of};
ghost use Rattle.command_programs.specs.Programs.{IsSettings};
ghost use Rattle.command_programs.specs.Refusals.{IsSettingsAnswer, IsSettingsLine};

use command_answers::{Answer, Outcome, placeless};
use command_inputs::{Halt, NamedText};
use java_syntax::Settings;
use rlc_base::{Code, Stop};
use settings_file::{default_settings, read_settings};
use std::alloc::Global;

/// The number by which a refusal of the settings file names it. Its line has the file's name and no place.
const SETTINGS_FILE: u32 = 0;

// The answer where a settings file is refused by this code.
fn refused_settings(alloc: Global, file: NamedText<'_>, code: Code) -> Halt
    requires { IsCause file.bytes.now code }
    ensures { HaltsBy result (IsSettingsLine (text_of file.entry)) }
{
    let outcome = Outcome::Refused;
    match placeless(alloc, file.name, code) {
        Ok(text) => Halt::Answered(Answer { outcome, text }),
        Err(_) => Halt::NoMemory,
    }
}

// The settings that a file says.
fn settings_in(alloc: Global, file: NamedText<'_>) -> Result<Settings, Halt>
    ensures read { IfOk result (IsRead file.entry.bytes.now) }
    ensures refused { IfHalted result (IsSettingsLine (text_of file.entry)) }
{
    match read_settings(alloc, SETTINGS_FILE, file.bytes) {
        Ok(settings) => Ok(settings),
        Err(Stop::Refused(refusal)) => Err(refused_settings(alloc, file, refusal.code)),
        Err(Stop::TooMuch(_)) => unreachable!(),
        Err(Stop::NoMemory) => Err(Halt::NoMemory),
    }
}

/// The settings that the settings file says, or the default ones where there is none.
///
/// # Errors
///
/// The answer `Refused` with the line `FILE: NUMBER NAME`, as by `read_settings`.
pub fn settings_for(alloc: Global, file: Option<NamedText<'_>>) -> Result<Settings, Halt>
    ensures read { IfOk result (IsSettings (option_map text_of file.entry)) }
    ensures refused { IfHalted result (IsSettingsAnswer (option_map text_of file.entry)) }
{
    match file {
        Some(file) => settings_in(alloc, file),
        None => Ok(default_settings(alloc)?),
    }
}
