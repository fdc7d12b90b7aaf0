//! The mode `verify`.

ghost use Rattle.std.specs.Prelude.{◌≡◌, ◌<◌, ◌^◌, ◌+◌, ◌≤◌, IfOk, length};
ghost use Rattle.must_call_sets.specs.WellFormed.{HasSmallInterests};
ghost use Rattle.command_inputs.specs.Halts.{IfAnswer};
ghost use Rattle.command_inputs.specs.Inputs.{FileText as ReadFile, names_of, text_of, texts_of};
ghost use Rattle.command_inputs.specs.Limited.{HasAllBeside};
ghost use Rattle.command_programs.specs.Inputs.{file_names};
ghost use Rattle.command_programs.specs.Programs.{IsProgramOf, IsShort};
ghost use Rattle.command_programs.specs.SignedPrograms.{HasListedFields};
ghost use Rattle.certificates.specs.Certified.{max_certificate};
ghost use Rattle.check_command.specs.Certificates.{IsVerifyAnswer, IsVerifying};

use certificates::{MAX_CERTIFICATE, check_cert};
use command_answers::{Answer, Outcome};
use command_inputs::{
    CommandNames, CommandTexts, Halt, LimitedFile, NamedText, read_beside, texts_of,
};
use command_programs::{file_names, halt_of, program_under, settings_for};
use outside::Files;
use program_model::Program;
use rlc_base::{Code, NoMemory, Text};
use std::alloc::Global;

// The answer for the program of the files. `names` are the names of the files by their numbers.
fn verified(
    alloc: Global,
    names: Vec<Text>,
    files: CommandTexts<'_>,
    program: &Program,
    certificate: NamedText<'_>,
) -> Result<Answer, Halt>
    requires program { IsProgramOf (texts_of files) program.now }
    requires names { names.items ≡ file_names (texts_of files).names }
    requires fields { HasListedFields program.now }
    requires interests { HasSmallInterests program.now }
    requires fits { length certificate.bytes.now ≤ max_certificate }
    ensures { IfAnswer result (IsVerifying (texts_of files.entry) (text_of certificate.entry)) }
{
    let Ok(number) = u32::try_from(names.len()) else {
        return Err(Halt::NoMemory);
    };
    let mut name = Text::new(alloc);
    name.push_bytes(certificate.name.as_bytes())?;
    let mut all = names;
    let Ok(()) = all.push(name) else {
        return Err(Halt::NoMemory);
    };
    match check_cert(alloc, program, number, certificate.bytes) {
        Ok(()) => Ok(Answer {
            outcome: Outcome::Accepted,
            text: Text::new(alloc),
        }),
        Err(stop) => Err(halt_of(alloc, &all, stop)),
    }
}

// The answer of `verify` for these texts.
fn verify_texts(
    alloc: Global,
    files: CommandTexts<'_>,
    certificate: NamedText<'_>,
) -> Result<Answer, Halt>
    requires short { IsShort (texts_of files) }
    requires fits { length certificate.bytes.now ≤ max_certificate }
    ensures { IfAnswer result (IsVerifying (texts_of files.entry) (text_of certificate.entry)) }
{
    let names = file_names(alloc, files.names)?;
    let settings = settings_for(alloc, files.settings)?;
    match program_under(alloc, &names, &settings, files) {
        Ok(program) => verified(alloc, names, files, &program, certificate),
        Err(halt) => Err(halt),
    }
}

// The answer of `verify`, or why there is none yet.
fn verify_files<F: Files>(
    alloc: Global,
    certificate: &str,
    names: CommandNames<'_>,
    files: &mut F,
) -> Result<Answer, Halt>
    ensures answer { IfAnswer result (IsVerifyAnswer certificate.now (F.contents files.old) (names_of names.entry) (record { faults = F.faults files.old; faults_now = F.faults files.new; taken = F.taken files.old; taken_now = F.taken files.new })) }
    ensures told { F.contents files.new ≡ F.contents files.old }
    ensures holds { F.sound files.old → HasAllBeside (F.contents files.old) (names_of names.entry) certificate.now → F.faults files.new ≡ F.faults files.old }
{
    let file = LimitedFile {
        name: certificate,
        most: MAX_CERTIFICATE as u32,
        code: Code::CertTooBig,
    };
    let (texts, text) = match read_beside(alloc, names, file, files) {
        Ok(read) => read,
        Err(halt) => return Err(halt),
    };
    let named = NamedText {
        name: certificate,
        bytes: text.bytes(),
    };
    verify_texts(alloc, texts_of(names, &texts), named)
}

/// The answer of `verify` for the certificate of this name and the files of these names: `Accepted` where the files make a program, and
/// the text is a certificate of it, so that the program is accepted. `Refused` or `Limit` with the line of the first refusal, as by
/// `check` as far as the rules on signatures; then by `check_cert`. The certificate is read behind the settings file, and has at most
/// 67,108,864 bytes; else the answer is `Limit` with the line `FILE: 82 CertTooBig`. `ReadFault` where a file can't be read. Over files
/// that are all there and sound no fault is counted (`holds`).
pub fn verify_answer<F: Files>(
    alloc: Global,
    certificate: &str,
    names: CommandNames<'_>,
    files: &mut F,
) -> Result<Answer, NoMemory>
    ensures answer { IfOk result (IsVerifyAnswer certificate.now (F.contents files.old) (names_of names.entry) (record { faults = F.faults files.old; faults_now = F.faults files.new; taken = F.taken files.old; taken_now = F.taken files.new })) }
    ensures told { F.contents files.new ≡ F.contents files.old }
    ensures holds { F.sound files.old → HasAllBeside (F.contents files.old) (names_of names.entry) certificate.now → F.faults files.new ≡ F.faults files.old }
{
    match verify_files(alloc, certificate, names, files) {
        Ok(answer) => Ok(answer),
        Err(Halt::Answered(answer)) => Ok(answer),
        Err(Halt::NoMemory) => Err(NoMemory),
    }
}
