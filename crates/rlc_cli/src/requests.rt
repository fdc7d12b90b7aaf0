//! The answer to what the words ask for.

ghost use Rattle.std.specs.Prelude.{◌≡◌, map, option_map, string_bytes, IfOk};
ghost use Rattle.source_files.specs.Reading.{HasAll};
ghost use Rattle.command_inputs.specs.Inputs.{list_of, names_of};
ghost use Rattle.command_inputs.specs.Limited.{HasAllBeside};
ghost use Rattle.check_command.specs.Certificates.{IsCertifyAnswer, IsVerifyAnswer};
ghost use Rattle.check_command.specs.Checks.{IsCheckAnswer};
ghost use Rattle.run_inputs.specs.Runs.{IsRunAnswer, run_of};
ghost use Rattle.command_words.specs.Requests.{input_names, request_in, request_of};
ghost use Rattle.rlc_cli.specs.Answers.{HasAllNamed, HasRequested, IsAnswer, check_names, IsRequestAnswer, IsUsage, run_names};

use check_command::{certify_answer, check_answer, generated_answer, verify_answer};
use command_answers::{Answer, Outcome};
use command_inputs::CommandNames;
use command_words::{Command, Inputs, WordsStop, read_words, usage};
use outside::Files;
use rlc_base::{NoMemory, Text};
use run_inputs::{MainRun, run_inputs};
use side_commands::settings_answer;
use std::alloc::Global;

// The answer to words that the command does not take.
fn usage_answer(alloc: Global) -> Result<Answer, NoMemory>
    ensures { IfOk result IsUsage }
{
    let mut text = Text::new(alloc);
    text.push_bytes(usage())?;
    let outcome = Outcome::Usage;
    Ok(Answer { outcome, text })
}

// The files of a check.
fn check_names<'a>(inputs: &'a Inputs<'a>) -> CommandNames<'a>
    ensures { names_of result ≡ check_names (input_names inputs.entry.now) }
{
    let settings = inputs.settings;
    let choices = None;
    let files = inputs.files.as_slice();
    CommandNames {
        settings,
        choices,
        files,
    }
}

// The answer of `check`.
fn check_inputs<F: Files>(
    alloc: Global,
    inputs: &Inputs<'_>,
    files: &mut F,
) -> Result<Answer, NoMemory>
    ensures answer { IfOk result (IsCheckAnswer (F.contents files.old) (check_names (input_names inputs.now)) (record { faults = F.faults files.old; faults_now = F.faults files.new; taken = F.taken files.old; taken_now = F.taken files.new })) }
    ensures told { F.contents files.new ≡ F.contents files.old }
    ensures holds { F.sound files.old → HasAll (F.contents files.old) (list_of (check_names (input_names inputs.now))) → F.faults files.new ≡ F.faults files.old }
{
    check_answer(alloc, check_names(inputs), files)
}

// The answer of `certify`.
fn certify_inputs<F: Files>(
    alloc: Global,
    inputs: &Inputs<'_>,
    files: &mut F,
) -> Result<Answer, NoMemory>
    ensures answer { IfOk result (IsCertifyAnswer (F.contents files.old) (check_names (input_names inputs.now)) (record { faults = F.faults files.old; faults_now = F.faults files.new; taken = F.taken files.old; taken_now = F.taken files.new })) }
    ensures told { F.contents files.new ≡ F.contents files.old }
    ensures holds { F.sound files.old → HasAll (F.contents files.old) (list_of (check_names (input_names inputs.now))) → F.faults files.new ≡ F.faults files.old }
{
    certify_answer(alloc, check_names(inputs), files)
}

// The answer of `verify`.
fn verify_inputs<F: Files>(
    alloc: Global,
    certificate: &str,
    inputs: &Inputs<'_>,
    files: &mut F,
) -> Result<Answer, NoMemory>
    ensures answer { IfOk result (IsVerifyAnswer certificate.now (F.contents files.old) (check_names (input_names inputs.now)) (record { faults = F.faults files.old; faults_now = F.faults files.new; taken = F.taken files.old; taken_now = F.taken files.new })) }
    ensures told { F.contents files.new ≡ F.contents files.old }
    ensures holds { F.sound files.old → HasAllBeside (F.contents files.old) (check_names (input_names inputs.now)) certificate.now → F.faults files.new ≡ F.faults files.old }
{
    verify_answer(alloc, certificate, check_names(inputs), files)
}

// The files of a run.
fn run_names<'a>(choices: Option<&'a str>, inputs: &'a Inputs<'a>) -> CommandNames<'a>
    ensures { names_of result ≡ run_names (option_map (λ name. name.now) choices.entry) (input_names inputs.entry.now) }
{
    let settings = inputs.settings;
    let files = inputs.files.as_slice();
    CommandNames {
        settings,
        choices,
        files,
    }
}

// The answer of `run`.
fn run_main<F: Files>(
    alloc: Global,
    run: MainRun<'_>,
    choices: Option<&str>,
    inputs: &Inputs<'_>,
    files: &mut F,
) -> Result<Answer, NoMemory>
    ensures answer { IfOk result (IsRunAnswer (run_of run.entry) (F.contents files.old) (run_names (option_map (λ name. name.now) choices.entry) (input_names inputs.now)) (record { faults = F.faults files.old; faults_now = F.faults files.new; taken = F.taken files.old; taken_now = F.taken files.new })) }
    ensures told { F.contents files.new ≡ F.contents files.old }
    ensures holds { F.sound files.old → HasAll (F.contents files.old) (list_of (run_names (option_map (λ name. name.now) choices.entry) (input_names inputs.now))) → F.faults files.new ≡ F.faults files.old }
{
    run_inputs(alloc, run, run_names(choices, inputs), files)
}

// The answer to a request.
fn request_answer<F: Files>(
    alloc: Global,
    command: &Command<'_>,
    files: &mut F,
) -> Result<Answer, NoMemory>
    ensures answer { IfOk result (IsRequestAnswer (F.contents files.old) (record { faults = F.faults files.old; faults_now = F.faults files.new; taken = F.taken files.old; taken_now = F.taken files.new }) (request_of command.now)) }
    ensures told { F.contents files.new ≡ F.contents files.old }
    ensures holds { F.sound files.old → HasRequested (F.contents files.old) (request_of command.now) → F.faults files.new ≡ F.faults files.old }
{
    match command {
        Command::Check(inputs) => check_inputs(alloc, inputs, files),
        Command::Run {
            main,
            choices,
            steps,
            inputs,
        } => run_main(
            alloc,
            MainRun {
                class: main,
                steps: *steps,
            },
            *choices,
            inputs,
            files,
        ),
        Command::Generate { seed, methods } => generated_answer(alloc, *seed, *methods),
        Command::Settings { file } => settings_answer(alloc, file, files),
        Command::Certify(inputs) => certify_inputs(alloc, inputs, files),
        Command::Verify {
            certificate,
            inputs,
        } => verify_inputs(alloc, certificate, inputs, files),
    }
}

/// The answer to the words: what they ask for is done, as `Command` says, and words that the command does not take are answered
/// `Usage`. Over files that are all there and sound no fault is counted (`holds`).
pub fn answer<F: Files>(alloc: Global, words: &[String], files: &mut F) -> Result<Answer, NoMemory>
    ensures answer { IfOk result (IsAnswer (F.contents files.old) (record { faults = F.faults files.old; faults_now = F.faults files.new; taken = F.taken files.old; taken_now = F.taken files.new }) (request_in (map string_bytes words.now))) }
    ensures told { F.contents files.new ≡ F.contents files.old }
    ensures holds { F.sound files.old → HasAllNamed (F.contents files.old) (request_in (map string_bytes words.now)) → F.faults files.new ≡ F.faults files.old }
{
    match read_words(alloc, words) {
        Ok(command) => request_answer(alloc, &command, files),
        Err(WordsStop::Usage) => usage_answer(alloc),
        Err(WordsStop::NoMemory) => Err(NoMemory),
    }
}
