//! The program of the files of a command.

ghost use Rattle.std.specs.Prelude.{◌≡◌, IfOk};
ghost use Rattle.program_reading.specs.WellFormed.{HasSmallInterests};
ghost use Rattle.program_reading.specs.Inputs.{file_names};
ghost use Rattle.program_reading.specs.Programs.{IsProgram};
ghost use Rattle.program_reading.specs.SignedPrograms.{HasListedFields};
ghost use Rattle.command_inputs.specs.Halts.{IfHalted};
ghost use Rattle.command_inputs.specs.Inputs.{texts_of};
ghost use Rattle.command_programs.specs.Programs.{IsProgramAnswer, IsShort, input_of};

use crate::stops::halt_of;
use command_inputs::{CommandTexts, Halt};
use java_syntax::Settings;
use program_model::Program;
use program_reading::read_program;
use rlc_base::Text;
use std::alloc::Global;

/// The program of the files under these settings. `names` are the names of the files by their numbers.
///
/// # Errors
///
/// The answer `Refused` or `Limit` with the line of the first refusal, as by `read_program`.
pub fn program_under(
    alloc: Global,
    names: &[Text],
    settings: &Settings,
    files: CommandTexts<'_>,
) -> Result<Program, Halt>
    requires short { IsShort (texts_of files) }
    requires names { names.now ≡ file_names (texts_of files).names }
    ensures program { IfOk result (IsProgram (input_of settings.now (texts_of files.entry))) }
    ensures fields { IfOk result HasListedFields }
    ensures interests { IfOk result HasSmallInterests }
    ensures refused { IfHalted result (IsProgramAnswer settings.now (texts_of files.entry)) }
{
    match read_program(alloc, settings, files.names, files.texts) {
        Ok(program) => Ok(program),
        Err(stop) => Err(halt_of(alloc, names, stop)),
    }
}
