//! The mode `certify`.

ghost use Rattle.std.specs.Prelude.{◌≡◌, IfOk, map};
ghost use Rattle.source_files.specs.Reading.{HasAll};
ghost use Rattle.must_call_sets.specs.WellFormed.{HasSmallInterests};
ghost use Rattle.rlc_base.specs.declared.code.Code.TheVariants as refused;
ghost use Rattle.command_answers.specs.Texts.{placeless_text};
ghost use Rattle.command_answers.specs.declared.answers.Outcome.TheVariants as outcomes;
ghost use Rattle.command_inputs.specs.Halts.{IfAnswer};
ghost use Rattle.command_inputs.specs.Inputs.{list_of, names_of, texts_of};
ghost use Rattle.command_programs.specs.Inputs.{file_names};
ghost use Rattle.command_programs.specs.Programs.{IsProgramOf, IsShort};
ghost use Rattle.command_programs.specs.SignedPrograms.{HasListedFields};
ghost use Rattle.check_command.specs.Certificates.{IsCertifyAnswer, IsCertifying, first_name};
ghost use Rattle.check_command.specs.ProgramReports.{IsFaulty};

use crate::faults::program_faults;
use certificates::{Certified, write_cert};
use command_answers::{Answer, Outcome, placeless};
use command_inputs::{CommandNames, CommandTexts, Halt, read_files, texts_of};
use command_programs::{file_names, halt_of, program_under, settings_for};
use outside::Files;
use program_model::Program;
use rlc_base::{Code, NoMemory, Text};
use std::alloc::Global;

// The answer where a certificate would be too long: it names the first file.
fn too_long(alloc: Global, files: &[&str]) -> Result<Answer, NoMemory>
    ensures outcome { IfOk result (λ answer. answer.outcome ≡ outcomes.Limit) }
    ensures text { IfOk result (λ answer. answer.text ≡ placeless_text (first_name (map (λ name. name.now) files.now)) refused.CertTooBig) }
{
    let first = match files.first() {
        Some(name) => *name,
        None => "",
    };
    let outcome = Outcome::Limit;
    let text = placeless(alloc, first, Code::CertTooBig)?;
    Ok(Answer { outcome, text })
}

// The answer for the program of the files, of which a path breaks a rule.
fn leaking(
    alloc: Global,
    names: &[Text],
    files: CommandTexts<'_>,
    program: Program,
) -> Result<Answer, Halt>
    requires program { IsProgramOf (texts_of files) program }
    requires names { names.now ≡ file_names (texts_of files).names }
    requires fields { HasListedFields program }
    requires interests { HasSmallInterests program }
    requires faulty { IsFaulty program }
    ensures { IfAnswer result (IsCertifying (texts_of files.entry)) }
{
    match program_faults(alloc, names, files, program) {
        Ok(faults) => Ok(Answer {
            outcome: Outcome::Leaks,
            text: faults.text,
        }),
        Err(halt) => Err(halt),
    }
}

// The answer for the program of the files.
fn certified(
    alloc: Global,
    names: &[Text],
    files: CommandTexts<'_>,
    program: Program,
) -> Result<Answer, Halt>
    requires program { IsProgramOf (texts_of files) program }
    requires names { names.now ≡ file_names (texts_of files).names }
    requires fields { HasListedFields program }
    requires interests { HasSmallInterests program }
    ensures { IfAnswer result (IsCertifying (texts_of files.entry)) }
{
    match write_cert(alloc, &program) {
        Ok(Certified::Written(text)) => Ok(Answer {
            outcome: Outcome::Accepted,
            text,
        }),
        Ok(Certified::TooLong) => Ok(too_long(alloc, files.names)?),
        Ok(Certified::Faulty) => leaking(alloc, names, files, program),
        Err(stop) => Err(halt_of(alloc, names, stop)),
    }
}

// The answer of `certify` for these texts.
fn certify_texts(alloc: Global, files: CommandTexts<'_>) -> Result<Answer, Halt>
    requires { IsShort (texts_of files) }
    ensures { IfAnswer result (IsCertifying (texts_of files.entry)) }
{
    let names = file_names(alloc, files.names)?;
    let settings = settings_for(alloc, files.settings)?;
    match program_under(alloc, &names, &settings, files) {
        Ok(program) => certified(alloc, &names, files, program),
        Err(halt) => Err(halt),
    }
}

// The answer of `certify`, or why there is none yet.
fn certify_files<F: Files>(
    alloc: Global,
    names: CommandNames<'_>,
    files: &mut F,
) -> Result<Answer, Halt>
    ensures answer { IfAnswer result (IsCertifyAnswer (F.contents files.old) (names_of names.entry) (record { faults = F.faults files.old; faults_now = F.faults files.new; taken = F.taken files.old; taken_now = F.taken files.new })) }
    ensures told { F.contents files.new ≡ F.contents files.old }
    ensures holds { F.sound files.old → HasAll (F.contents files.old) (list_of (names_of names.entry)) → F.faults files.new ≡ F.faults files.old }
{
    let texts = read_files(alloc, names, files)?;
    certify_texts(alloc, texts_of(names, &texts))
}

/// The answer of `certify` for the files of these names: that of `check`, but where the program is accepted. Then it is `Accepted` with a
/// certificate, or `Limit` with the line `FILE: 82 CertTooBig` where one would be longer than 67,108,864 bytes; `FILE` is the first file.
/// Over files that are all there and sound no fault is counted (`holds`).
pub fn certify_answer<F: Files>(
    alloc: Global,
    names: CommandNames<'_>,
    files: &mut F,
) -> Result<Answer, NoMemory>
    ensures answer { IfOk result (IsCertifyAnswer (F.contents files.old) (names_of names.entry) (record { faults = F.faults files.old; faults_now = F.faults files.new; taken = F.taken files.old; taken_now = F.taken files.new })) }
    ensures told { F.contents files.new ≡ F.contents files.old }
    ensures holds { F.sound files.old → HasAll (F.contents files.old) (list_of (names_of names.entry)) → F.faults files.new ≡ F.faults files.old }
{
    match certify_files(alloc, names, files) {
        Ok(answer) => Ok(answer),
        Err(Halt::Answered(answer)) => Ok(answer),
        Err(Halt::NoMemory) => Err(NoMemory),
    }
}
