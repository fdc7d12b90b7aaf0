//! Reading the files of a command.

ghost use Rattle.std.specs.Prelude.{◌≡◌, ◌≤◌, [], List, ℕ, Option, length, map, option_map, drop, get_or, slice_get, None, IfOk, OnOk};
ghost use Rattle.outside.specs.Files.{Contents};
ghost use Rattle.input_files.specs.Reading.{Counts, HasAll};
ghost use Rattle.input_files.specs.Inputs.{IsLimitLine};
ghost use Rattle.input_files.specs.Names.{optional_name};
ghost use Rattle.rlc_base.specs.declared.code.Code.TheVariants as refused;
ghost use Rattle.command_inputs.specs.Halts.{IfHalted};
ghost use Rattle.command_inputs.specs.Inputs.{AreFileTexts, AreRead, IsUnread, file_in, list_of, names_of, text_of, texts_behind, texts_of};

use crate::halts::Halt;
use crate::names::{CommandNames, CommandTexts, NamedText};
use command_answers::Answer;
use input_files::{ReadOutcome, read_inputs, reading_list, too_many};
use outside::Files;
use rlc_base::Text;
use std::alloc::Global;

/// The words name at most 256 files.
pub(crate) fn few_files(alloc: Global, files: &[&str]) -> Result<(), Halt>
    ensures few { OnOk result (slice_get (map (λ name. name.now) files.now) 256 ≡ None) }
    ensures many { IfHalted result (IsLimitLine refused.TooManyFiles (map (λ name. name.now) files.now) 256) }
{
    match too_many(alloc, files)? {
        None => Ok(()),
        Some(answer) => Err(Halt::Answered(answer)),
    }
}

/// Reads the files of a command: the settings file, the choices file and then the others in the order of the words. No file is
/// read where the words name more than 256. The texts are in the order in which they were read. Over files that are all there
/// and sound no fault is counted (`holds`).
///
/// # Errors
///
/// The answer `Limit` where the words name too many files, and that of `read_inputs` where one can't be read.
pub fn read_files<F: Files>(
    alloc: Global,
    names: CommandNames<'_>,
    files: &mut F,
) -> Result<Vec<Text>, Halt>
    ensures read { IfOk result (λ texts. AreRead (F.contents files.old) (names_of names.entry) (record { faults = F.faults files.old; faults_now = F.faults files.new; taken = F.taken files.old; taken_now = F.taken files.new }) texts.items) }
    ensures unread { IfHalted result (IsUnread (F.contents files.old) (names_of names.entry) (record { faults = F.faults files.old; faults_now = F.faults files.new; taken = F.taken files.old; taken_now = F.taken files.new })) }
    ensures told { F.contents files.new ≡ F.contents files.old }
    ensures holds { F.sound files.old → HasAll (F.contents files.old) (list_of (names_of names.entry)) → F.faults files.new ≡ F.faults files.old }
{
    few_files(alloc, names.files)?;
    let list = reading_list(alloc, names.settings, names.choices, names.files)?;
    match read_inputs(alloc, 0, &list, files)? {
        ReadOutcome::Texts(texts) => Ok(texts),
        ReadOutcome::Answered(answer) => Err(Halt::Answered(answer)),
    }
}

// The file of this name, whose text is the first.
fn first_file<'a>(name: Option<&'a str>, texts: &'a [Text]) -> Option<NamedText<'a>>
    requires { length (optional_name (option_map (λ text. text.now) name)) ≤ length texts.now }
    ensures { option_map text_of result ≡ file_in (option_map (λ text. text.now) name.entry) texts.entry.now }
{
    match name {
        None => None,
        Some(name) => Some(NamedText {
            name,
            bytes: texts[0].bytes(),
        }),
    }
}

// The texts behind that of the file of this name.
fn other_texts<'a>(name: Option<&str>, texts: &'a [Text]) -> &'a [Text]
    requires { length (optional_name (option_map (λ text. text.now) name)) ≤ length texts.now }
    ensures { result.now ≡ texts_behind (option_map (λ text. text.now) name.entry) texts.entry.now }
{
    match name {
        None => texts,
        Some(_) => &texts[1..],
    }
}

/// What was read of the files of these names, whose texts are in the order in which they were read.
pub fn texts_of<'a>(names: CommandNames<'a>, texts: &'a [Text]) -> CommandTexts<'a>
    requires { length texts.now ≡ length (list_of (names_of names)) }
    ensures { (told : Option Contents) (c : Counts) → AreRead told (names_of names.entry) c texts.entry.now → AreFileTexts told (names_of names.entry) (texts_of result) }
{
    let settings = first_file(names.settings, texts);
    let behind_settings = other_texts(names.settings, texts);
    let choices = first_file(names.choices, behind_settings);
    let program_texts = other_texts(names.choices, behind_settings);
    CommandTexts {
        settings,
        choices,
        names: names.files,
        texts: program_texts,
    }
}
