//! The mode `run`.

ghost use Rattle.std.specs.Prelude.{◌≡◌, map, IfOk};
ghost use Rattle.source_files.specs.Reading.{HasAll};
ghost use Rattle.command_inputs.specs.Halts.{IfAnswer};
ghost use Rattle.command_inputs.specs.Inputs.{list_of, names_of, texts_of};
ghost use Rattle.command_programs.specs.Inputs.{file_names};
ghost use Rattle.command_programs.specs.Programs.{IsProgramOf, IsShort};
ghost use Rattle.run_inputs.specs.Runs.{IsRun, IsRunAnswer, IsRunOf, IsShortFile, first_name, run_of};

use crate::choices::choices_for;
use command_answers::Answer;
use command_inputs::{CommandNames, CommandTexts, Halt, read_files, texts_of};
use command_programs::{file_names, program_under, settings_for};
use outside::Files;
use program_model::Program;
use rlc_base::{NoMemory, Text};
use run_command::run_answer;
use std::alloc::Global;
use stub_conduct::Choices;

/// What is run.
#[derive(Clone, Copy)]
pub struct MainRun<'a> {
    /// The qualified name of the class whose `main` is run.
    pub class: &'a str,
    /// The most steps that are taken.
    pub steps: u32,
}

// The first of the file words.
fn first_name<'a>(names: &[&'a str]) -> &'a str
    ensures { result.now ≡ first_name (map (λ name. name.now) names.now) }
{
    match names {
        [name, ..] => name,
        [] => "",
    }
}

// The answer of a run of the program of these texts.
fn run_program(
    alloc: Global,
    names: &[Text],
    run: MainRun<'_>,
    files: CommandTexts<'_>,
    choices: Choices,
    program: Program,
) -> Result<Answer, Halt>
    requires program { IsProgramOf (texts_of files) program }
    requires names { names.now ≡ file_names (texts_of files).names }
    ensures { IfAnswer result (IsRun (run_of run.entry) (texts_of files.entry) choices) }
{
    let first = first_name(files.names);
    match run_answer(alloc, program, names, first, run.class, choices, run.steps) {
        Ok(answer) => Ok(answer),
        Err(_) => Err(Halt::NoMemory),
    }
}

// The answer of a run over these texts.
fn run_texts(alloc: Global, run: MainRun<'_>, files: CommandTexts<'_>) -> Result<Answer, Halt>
    requires short { IsShort (texts_of files) }
    requires choices { IsShortFile (texts_of files).choices }
    ensures { IfAnswer result (IsRunOf (run_of run.entry) (texts_of files.entry)) }
{
    let names = file_names(alloc, files.names)?;
    let settings = settings_for(alloc, files.settings)?;
    let choices = match choices_for(alloc, files.choices) {
        Ok(choices) => choices,
        Err(halt) => return Err(halt),
    };
    match program_under(alloc, &names, &settings, files) {
        Ok(program) => run_program(alloc, &names, run, files, choices, program),
        Err(halt) => Err(halt),
    }
}

// The answer of `run`, or why there is none yet.
fn run_files<F: Files>(
    alloc: Global,
    run: MainRun<'_>,
    names: CommandNames<'_>,
    files: &mut F,
) -> Result<Answer, Halt>
    ensures answer { IfAnswer result (IsRunAnswer (run_of run.entry) (F.contents files.old) (names_of names.entry) (record { faults = F.faults files.old; faults_now = F.faults files.new; taken = F.taken files.old; taken_now = F.taken files.new })) }
    ensures told { F.contents files.new ≡ F.contents files.old }
    ensures holds { F.sound files.old → HasAll (F.contents files.old) (list_of (names_of names.entry)) → F.faults files.new ≡ F.faults files.old }
{
    let texts = read_files(alloc, names, files)?;
    run_texts(alloc, run, texts_of(names, &texts))
}

/// The answer of `run` for the `main` of a class of the program of these files, as `run_answer` says. `Refused` or `Limit` with the line
/// of the first refusal, in the order of the stages: the number of the files and their lengths, the settings, the choices, the program, and
/// that the class has no `main`. `ReadFault` where a file can't be read. Over files that are all there and sound no fault is
/// counted (`holds`).
pub fn run_inputs<F: Files>(
    alloc: Global,
    run: MainRun<'_>,
    names: CommandNames<'_>,
    files: &mut F,
) -> Result<Answer, NoMemory>
    ensures answer { IfOk result (IsRunAnswer (run_of run.entry) (F.contents files.old) (names_of names.entry) (record { faults = F.faults files.old; faults_now = F.faults files.new; taken = F.taken files.old; taken_now = F.taken files.new })) }
    ensures told { F.contents files.new ≡ F.contents files.old }
    ensures holds { F.sound files.old → HasAll (F.contents files.old) (list_of (names_of names.entry)) → F.faults files.new ≡ F.faults files.old }
{
    match run_files(alloc, run, names, files) {
        Ok(answer) => Ok(answer),
        Err(Halt::Answered(answer)) => Ok(answer),
        Err(Halt::NoMemory) => Err(NoMemory),
    }
}
