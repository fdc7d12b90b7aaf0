//! The mode `check`.

ghost use Rattle.std.specs.Prelude.{◌≡◌, IfOk};
ghost use Rattle.source_files.specs.Reading.{HasAll};
ghost use Rattle.command_inputs.specs.Halts.{IfAnswer};
ghost use Rattle.command_inputs.specs.Inputs.{FileTexts, list_of, names_of, texts_of};
ghost use Rattle.command_programs.specs.Programs.{IsShort};
ghost use Rattle.program_model.specs.declared.program.Program.{Program as DeclaredProgram};
ghost use Rattle.check_command.specs.Checks.{AreFaults, IsCheckAnswer, IsChecked};

use crate::faults::file_faults;
use command_answers::{Answer, Outcome};
use command_inputs::{CommandNames, CommandTexts, Halt, read_files, texts_of};
use outside::Files;
use program_faults::ProgramFaults;
use rlc_base::{NoMemory, Text};
use std::alloc::Global;

// The answer to so many faults.
fn answer_to(alloc: Global, faults: ProgramFaults) -> Answer
    ensures { (files : FileTexts) (p : DeclaredProgram) → AreFaults files p faults.count faults.text → IsChecked files result }
{
    if faults.count == 0 {
        return Answer {
            outcome: Outcome::Accepted,
            text: Text::new(alloc),
        };
    }
    Answer {
        outcome: Outcome::Leaks,
        text: faults.text,
    }
}

// The answer of a check of these texts.
fn check_texts(alloc: Global, files: CommandTexts<'_>) -> Result<Answer, Halt>
    requires { IsShort (texts_of files) }
    ensures { IfAnswer result (IsChecked (texts_of files.entry)) }
{
    match file_faults(alloc, files) {
        Ok(faults) => Ok(answer_to(alloc, faults)),
        Err(halt) => Err(halt),
    }
}

// The answer of `check`, or why there is none yet.
fn check_files<F: Files>(
    alloc: Global,
    names: CommandNames<'_>,
    files: &mut F,
) -> Result<Answer, Halt>
    ensures answer { IfAnswer result (IsCheckAnswer (F.contents files.old) (names_of names.entry) (record { faults = F.faults files.old; faults_now = F.faults files.new; taken = F.taken files.old; taken_now = F.taken files.new })) }
    ensures told { F.contents files.new ≡ F.contents files.old }
    ensures holds { F.sound files.old → HasAll (F.contents files.old) (list_of (names_of names.entry)) → F.faults files.new ≡ F.faults files.old }
{
    let texts = read_files(alloc, names, files)?;
    check_texts(alloc, texts_of(names, &texts))
}

/// The answer of `check` for the files of these names: `Accepted` where the files make a program and the flow rules derive no fault in
/// it, and `Leaks`, with a report of each fault, where they derive one. `Refused` or `Limit` with the line of the first
/// refusal, in the order of the stages: the number of the files and their lengths, the settings, the tokens of all files, their trees, the
/// table of classes, the types, the annotations, the rules on signatures, and the limits of each body. `ReadFault` where a file can't be
/// read. Over files that are all there and sound no fault is counted (`holds`).
pub fn check_answer<F: Files>(
    alloc: Global,
    names: CommandNames<'_>,
    files: &mut F,
) -> Result<Answer, NoMemory>
    ensures answer { IfOk result (IsCheckAnswer (F.contents files.old) (names_of names.entry) (record { faults = F.faults files.old; faults_now = F.faults files.new; taken = F.taken files.old; taken_now = F.taken files.new })) }
    ensures told { F.contents files.new ≡ F.contents files.old }
    ensures holds { F.sound files.old → HasAll (F.contents files.old) (list_of (names_of names.entry)) → F.faults files.new ≡ F.faults files.old }
{
    match check_files(alloc, names, files) {
        Ok(answer) => Ok(answer),
        Err(Halt::Answered(answer)) => Ok(answer),
        Err(Halt::NoMemory) => Err(NoMemory),
    }
}
