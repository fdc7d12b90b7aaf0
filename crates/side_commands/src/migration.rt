//! The mode `settings`: a settings file as a document of the newest version.

ghost use Rattle.std.specs.Prelude.{◌≡◌, IfOk};
ghost use Rattle.source_files.specs.Reading.{HasNamed};
ghost use Rattle.side_commands.specs.Migration.{IsDueFor, IsMigration, IsSettingsAnswer, due_outcome, due_text};

use crate::reading::read_file;
use command_answers::{Answer, Outcome, placeless, read_fault};
use outside::{Files, ReadFail};
use rlc_base::{Code, NoMemory, Stop, Text};
use settings_file::{print_settings, read_settings};
use std::alloc::Global;

/// The number of the settings file where no other file is read but the core stub, which is file 0.
const SETTINGS_FILE: u32 = 1;

/// What is to be said of a settings file.
#[derive(Debug, Drop)]
pub enum Due {
    /// The document of the newest version.
    Printed(Text),
    /// The bytes are no settings document.
    Refused(Code),
    /// The file has more bytes than a file may have.
    TooBig,
    /// The file could not be read.
    ReadFault,
}

// What is to be said of the bytes of a settings file.
fn migrated(alloc: Global, bytes: &[u8]) -> Result<Due, NoMemory>
    ensures { IfOk result (IsMigration bytes.now) }
{
    let settings = match read_settings(alloc, SETTINGS_FILE, bytes) {
        Ok(settings) => settings,
        Err(Stop::Refused(refusal)) => return Ok(Due::Refused(refusal.code)),
        Err(Stop::TooMuch(_)) => unreachable!(),
        Err(Stop::NoMemory) => return Err(NoMemory),
    };
    let mut text = Text::new(alloc);
    print_settings(alloc, &settings, &mut text)?;
    Ok(Due::Printed(text))
}

// What is to be said of the settings file of this name.
fn due_for<F: Files>(alloc: Global, name: &str, files: &mut F) -> Result<Due, NoMemory>
    ensures due { IfOk result (IsDueFor (F.contents files.old) name.now (record { faults = F.faults files.old; faults_now = F.faults files.new; taken = F.taken files.old; taken_now = F.taken files.new })) }
    ensures told { F.contents files.new ≡ F.contents files.old }
    ensures holds { F.sound files.old → HasNamed (F.contents files.old) name.now → F.faults files.new ≡ F.faults files.old }
{
    let text = match read_file(alloc, name, files) {
        Ok(text) => text,
        Err(ReadFail::Failed) => return Ok(Due::ReadFault),
        Err(ReadFail::TooBig) => return Ok(Due::TooBig),
        Err(ReadFail::NoMemory) => return Err(NoMemory),
    };
    migrated(alloc, text.bytes())
}

fn outcome_of(due: &Due) -> Outcome
    ensures { result ≡ due_outcome due.now }
{
    match due {
        Due::Printed(_) => Outcome::Accepted,
        Due::Refused(_) => Outcome::Refused,
        Due::TooBig => Outcome::Limit,
        Due::ReadFault => Outcome::ReadFault,
    }
}

fn text_of(alloc: Global, name: &str, due: Due) -> Result<Text, NoMemory>
    ensures { IfOk result (λ text. text ≡ due_text name.now due) }
{
    match due {
        Due::Printed(text) => Ok(text),
        Due::Refused(code) => placeless(alloc, name, code),
        Due::TooBig => placeless(alloc, name, Code::FileTooBig),
        Due::ReadFault => read_fault(alloc, name),
    }
}

/// The answer of `settings` for the file of this name: `Accepted` with a document of the newest version that says the same,
/// or `Refused`, `Limit` or `ReadFault` with a line that says why. Over a file that is there, no fault is counted (`holds`).
pub fn settings_answer<F: Files>(
    alloc: Global,
    name: &str,
    files: &mut F,
) -> Result<Answer, NoMemory>
    ensures answer { IfOk result (IsSettingsAnswer (F.contents files.old) name.now (record { faults = F.faults files.old; faults_now = F.faults files.new; taken = F.taken files.old; taken_now = F.taken files.new })) }
    ensures told { F.contents files.new ≡ F.contents files.old }
    ensures holds { F.sound files.old → HasNamed (F.contents files.old) name.now → F.faults files.new ≡ F.faults files.old }
{
    let due = due_for(alloc, name, files)?;
    let outcome = outcome_of(&due);
    let text = text_of(alloc, name, due)?;
    Ok(Answer { outcome, text })
}
