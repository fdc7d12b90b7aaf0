//! What the flow rules say of the files of a command.

ghost use Rattle.std.specs.Prelude.{◌≡◌, ◌<◌, IfOk};
ghost use Rattle.must_call_sets.specs.WellFormed.{HasSmallInterests};
ghost use Rattle.command_programs.specs.Inputs.{file_names};
ghost use Rattle.command_programs.specs.SignedPrograms.{HasListedFields};
ghost use Rattle.program_faults.specs.ProgramReports.{IsFaultCount, IsFaultStop, IsFaulty, IsReportText};
ghost use Rattle.command_inputs.specs.Halts.{IfHalted};
ghost use Rattle.command_inputs.specs.Inputs.{texts_of};
ghost use Rattle.program_model.specs.declared.program.Program.{Program as DeclaredProgram};
ghost use Rattle.command_programs.specs.Programs.{IsProgramOf, IsShort};
ghost use Rattle.check_command.specs.Checks.{AreFaults, IsLimitAnswer, IsUnchecked};

use command_inputs::{CommandTexts, Halt};
use command_programs::{file_names, halt_of, program_under, settings_for};
use program_faults::{ProgramFaults, check_program};
use program_model::Program;
use rlc_base::Text;
use std::alloc::Global;

/// The faults of the program of the files.
pub(crate) fn program_faults(
    alloc: Global,
    names: &[Text],
    files: CommandTexts<'_>,
    program: Program,
) -> Result<ProgramFaults, Halt>
    requires program { IsProgramOf (texts_of files) program }
    requires names { names.now ≡ file_names (texts_of files).names }
    requires fields { HasListedFields program }
    requires interests { HasSmallInterests program }
    ensures faults { IfOk result (λ x. AreFaults (texts_of files.entry) program x.count x.text) }
    ensures limit { IfHalted result (IsLimitAnswer (texts_of files.entry) program) }
{
    match check_program(alloc, program, names) {
        Ok(faults) => Ok(faults),
        Err(stop) => Err(halt_of(alloc, names, stop)),
    }
}

/// What the flow rules say of the program of the files.
///
/// # Errors
///
/// The answer where the settings are refused, or the program, or where a body passes a limit.
pub fn file_faults(alloc: Global, files: CommandTexts<'_>) -> Result<ProgramFaults, Halt>
    requires { IsShort (texts_of files) }
    ensures faults { IfOk result (λ x. (p : DeclaredProgram) × AreFaults (texts_of files.entry) p x.count x.text) }
    ensures unchecked { IfHalted result (IsUnchecked (texts_of files.entry)) }
{
    let names = file_names(alloc, files.names)?;
    let settings = settings_for(alloc, files.settings)?;
    match program_under(alloc, &names, &settings, files) {
        Ok(program) => program_faults(alloc, &names, files, program),
        Err(halt) => Err(halt),
    }
}
