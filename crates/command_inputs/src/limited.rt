//! Reading a file with a limit of its own beside the files of a command.

ghost use Rattle.std.specs.Prelude.{◌≡◌, ◌+◌, ◌++◌, ◌≤◌, ℕ, List, map, option_map, string_bytes, IfOk, OnOk};
ghost use Rattle.outside.specs.Files.{Contents};
ghost use Rattle.input_files.specs.Reading.{AreContents, CountsNoFault, HasAll, HasNamed, max_text, total_of};
ghost use Rattle.input_files.specs.Inputs.{IsStopped};
ghost use Rattle.command_inputs.specs.Halts.{HaltsBy, IfHalted};
ghost use Rattle.command_inputs.specs.Inputs.{names_of};
ghost use Rattle.command_inputs.specs.Limited.{AreReadBeside, HasAllBeside, IsLimitedStop, IsLimitedText, IsUnreadBeside, limited_of};
ghost use Rattle.command_answers.specs.Texts.{placeless_text, read_fault_text};
ghost use Rattle.command_answers.specs.declared.answers.Outcome.TheVariants as outcomes;

use crate::halts::Halt;
use crate::names::CommandNames;
use crate::reading::few_files;
use command_answers::{Answer, Outcome, placeless, read_fault};
use input_files::{ReadOutcome, read_inputs, reading_list};
use outside::{Files, ReadFail};
use rlc_base::{Code, NoMemory, Text};
use std::alloc::Global;

/// A file with a limit of its own.
#[derive(Clone, Copy)]
pub struct LimitedFile<'a> {
    /// Its name.
    pub name: &'a str,
    /// The most bytes that it may have.
    pub most: u32,
    /// The code that says that it has more.
    pub code: Code,
}

// The answer for the file where it could not be read.
fn fault_halt(alloc: Global, file: LimitedFile<'_>) -> Halt
    ensures { HaltsBy result (λ answer. (answer.outcome ≡ outcomes.ReadFault) × (answer.text ≡ read_fault_text file.entry.name.now)) }
{
    let outcome = Outcome::ReadFault;
    match read_fault(alloc, file.name) {
        Ok(text) => Halt::Answered(Answer { outcome, text }),
        Err(NoMemory) => Halt::NoMemory,
    }
}

// The answer for the file where it is too long.
fn long_halt(alloc: Global, file: LimitedFile<'_>) -> Halt
    ensures { HaltsBy result (λ answer. (answer.outcome ≡ outcomes.Limit) × (answer.text ≡ placeless_text file.entry.name.now file.entry.code)) }
{
    let outcome = Outcome::Limit;
    match placeless(alloc, file.name, file.code) {
        Ok(text) => Halt::Answered(Answer { outcome, text }),
        Err(NoMemory) => Halt::NoMemory,
    }
}

// Reads the file.
fn read_limited<F: Files>(alloc: Global, file: LimitedFile<'_>, files: &mut F) -> Result<Text, Halt>
    ensures text { IfOk result (IsLimitedText (F.contents files.old) (limited_of file.entry)) }
    ensures no_fault { OnOk result (F.faults files.new ≡ F.faults files.old) }
    ensures stopped { IfHalted result (IsLimitedStop (F.contents files.old) (limited_of file.entry) (record { faults = F.faults files.old; faults_now = F.faults files.new; taken = F.taken files.old; taken_now = F.taken files.new })) }
    ensures told { F.contents files.new ≡ F.contents files.old }
    ensures holds { F.sound files.old → HasNamed (F.contents files.old) file.entry.name.now → F.faults files.new ≡ F.faults files.old }
    ensures stays_sound { F.sound files.old → F.sound files.new }
    ensures never_falls { F.taken files.old ≤ F.taken files.new }
{
    let mut bytes = Vec::new(alloc);
    match files.read_upto(file.name, file.most, &mut bytes) {
        Ok(()) => Ok(Text::from_bytes(bytes)),
        Err(ReadFail::Failed) => Err(fault_halt(alloc, file)),
        Err(ReadFail::TooBig) => Err(long_halt(alloc, file)),
        Err(ReadFail::NoMemory) => Err(Halt::NoMemory),
    }
}

// Reads the files of these names, where `held` bytes were read before.
fn read_texts<F: Files>(
    alloc: Global,
    held: usize,
    names: &[String],
    files: &mut F,
) -> Result<Vec<Text>, Halt>
    requires { held ≤ max_text }
    ensures contents { IfOk result (λ texts. AreContents (F.contents files.old) (map string_bytes names.now) texts.items) }
    ensures total { IfOk result (λ texts. held + total_of texts.items ≤ max_text) }
    ensures no_fault { OnOk result (F.faults files.new ≡ F.faults files.old) }
    ensures stopped { IfHalted result (IsStopped (F.contents files.old) held (map string_bytes names.now) (record { faults = F.faults files.old; faults_now = F.faults files.new; taken = F.taken files.old; taken_now = F.taken files.new })) }
    ensures told { F.contents files.new ≡ F.contents files.old }
    ensures holds { F.sound files.old → HasAll (F.contents files.old) (map string_bytes names.now) → F.faults files.new ≡ F.faults files.old }
    ensures stays_sound { F.sound files.old → F.sound files.new }
    ensures never_falls { F.taken files.old ≤ F.taken files.new }
{
    match read_inputs(alloc, held, names, files)? {
        ReadOutcome::Texts(texts) => Ok(texts),
        ReadOutcome::Answered(answer) => Err(Halt::Answered(answer)),
    }
}

// How many bytes the texts have together.
fn total_of(texts: &[Text]) -> usize
    requires { total_of texts.now ≤ max_text }
    ensures { result ≡ total_of texts.now }
{
    let [text, rest @ ..] = texts else {
        return 0;
    };
    text.bytes().len() + total_of(rest)
}

// Reads the program's files behind others, whose texts are given.
fn read_behind<F: Files>(
    alloc: Global,
    texts: Vec<Text>,
    names: &[&str],
    files: &mut F,
) -> Result<Vec<Text>, Halt>
    requires { total_of texts.items ≤ max_text }
    ensures contents { IfOk result (λ all. (more : List (List ℕ)) × ((all.items ≡ texts.items ++ more) × AreContents (F.contents files.old) (map (λ name. name.now) names.now) more)) }
    ensures total { IfOk result (λ all. total_of all.items ≤ max_text) }
    ensures no_fault { OnOk result (F.faults files.new ≡ F.faults files.old) }
    ensures stopped { IfHalted result (IsStopped (F.contents files.old) (total_of texts.items) (map (λ name. name.now) names.now) (record { faults = F.faults files.old; faults_now = F.faults files.new; taken = F.taken files.old; taken_now = F.taken files.new })) }
    ensures told { F.contents files.new ≡ F.contents files.old }
    ensures holds { F.sound files.old → HasAll (F.contents files.old) (map (λ name. name.now) names.now) → F.faults files.new ≡ F.faults files.old }
{
    let list = reading_list(alloc, None, None, names)?;
    let mut more = read_texts(alloc, total_of(&texts), &list, files)?;
    let mut all = texts;
    match all.append(&mut more) {
        Ok(()) => Ok(all),
        Err(_) => Err(Halt::NoMemory),
    }
}

/// Reads the files of a command, and beside them a file with a limit of its own: the settings file and the choices file, then that
/// file, and then the others in the order of the words. No file is read where the words name more than 256. Over files that are all
/// there and sound no fault is counted (`holds`).
///
/// # Errors
///
/// The answer `Limit` where the words name too many files, and that of the first file that can't be read.
pub fn read_beside<F: Files>(
    alloc: Global,
    names: CommandNames<'_>,
    file: LimitedFile<'_>,
    files: &mut F,
) -> Result<(Vec<Text>, Text), Halt>
    ensures read { IfOk result (λ x. AreReadBeside (F.contents files.old) (names_of names.entry) (limited_of file.entry) (record { faults = F.faults files.old; faults_now = F.faults files.new; taken = F.taken files.old; taken_now = F.taken files.new }) x.0.items x.1) }
    ensures unread { IfHalted result (IsUnreadBeside (F.contents files.old) (names_of names.entry) (limited_of file.entry) (record { faults = F.faults files.old; faults_now = F.faults files.new; taken = F.taken files.old; taken_now = F.taken files.new })) }
    ensures told { F.contents files.new ≡ F.contents files.old }
    ensures holds { F.sound files.old → HasAllBeside (F.contents files.old) (names_of names.entry) file.entry.name.now → F.faults files.new ≡ F.faults files.old }
{
    few_files(alloc, names.files)?;
    let list = reading_list(alloc, names.settings, names.choices, &[])?;
    let texts = read_texts(alloc, 0, &list, files)?;
    let text = match read_limited(alloc, file, files) {
        Ok(text) => text,
        Err(halt) => return Err(halt),
    };
    match read_behind(alloc, texts, names.files, files) {
        Ok(all) => Ok((all, text)),
        Err(halt) => Err(halt),
    }
}
