// Reading files one after another.

ghost use Rattle.std.specs.Prelude.{◌≡◌, ◌<◌, ◌≤◌, ◌+◌, map, string_bytes, length, OnOk, OnErr, IfOk, IfErr, Ok};
ghost use Rattle.outside.specs.Files.{HasFile, max_file};
ghost use Rattle.source_files.specs.Reading.{HasAll, HasNamed, IsOneReading, IsReading, max_text};

use crate::stops::ReadingStop;
use outside::{Files, ReadFail};
use rlc_base::Text;
use std::alloc::Global;

/// The most bytes that all files of a command may have together.
pub const MAX_TEXT: usize = 16_777_216;

// Reads the file of this number, where those before it have so many bytes.
fn read_one<F: Files>(
    alloc: Global,
    name: &str,
    at: usize,
    total: usize,
    files: &mut F,
) -> Result<Text, ReadingStop>
    requires { total ≤ max_text }
    ensures cause { IsOneReading (F.contents files.old) name.now at total (record { faults = F.faults files.old; faults_now = F.faults files.new; taken = F.taken files.old; taken_now = F.taken files.new }) result }
    ensures told { F.contents files.new ≡ F.contents files.old }
    ensures holds { F.sound files.old → HasNamed (F.contents files.old) name.now → F.faults files.new ≡ F.faults files.old }
    ensures stays_sound { F.sound files.old → F.sound files.new }
    ensures never_falls { F.taken files.old ≤ F.taken files.new }
{
    let mut bytes = Vec::new(alloc);
    match files.read(name, &mut bytes) {
        Ok(()) => {}
        Err(ReadFail::Failed) => return Err(ReadingStop::Failed(at)),
        Err(ReadFail::TooBig) => return Err(ReadingStop::TooBig(at)),
        Err(ReadFail::NoMemory) => return Err(ReadingStop::NoMemory),
    }
    if bytes.len() > MAX_TEXT - total {
        return Err(ReadingStop::TooMuch(at));
    }
    Ok(Text::from_bytes(bytes))
}

/// Reads the files of these names, in this order, where `held` bytes were read before. The first that is missing or whose reading
/// fails, that is longer than `outside::MAX_FILE`, or with which all are longer than `MAX_TEXT` together with those bytes stops the
/// reading, with its number. Over files that are all there and sound no fault is counted (`holds`).
pub fn read_all<F: Files>(
    alloc: Global,
    held: usize,
    names: &[String],
    files: &mut F,
) -> Result<Vec<Text>, ReadingStop>
    requires { held ≤ max_text }
    ensures cause { IsReading (F.contents files.old) held (map string_bytes names.now) (record { faults = F.faults files.old; faults_now = F.faults files.new; taken = F.taken files.old; taken_now = F.taken files.new }) result }
    ensures told { F.contents files.new ≡ F.contents files.old }
    ensures holds { F.sound files.old → HasAll (F.contents files.old) (map string_bytes names.now) → F.faults files.new ≡ F.faults files.old }
    ensures stays_sound { F.sound files.old → F.sound files.new }
    ensures never_falls { F.taken files.old ≤ F.taken files.new }
{
    let mut texts = Vec::new(alloc);
    let mut total = held;
    'each: for name in names {
        let text = match read_one(alloc, name, texts.len(), total, files) {
            Ok(text) => text,
            Err(stop) => return Err(stop),
        };
        total += text.bytes().len();
        let Ok(()) = texts.push(text) else {
            return Err(ReadingStop::NoMemory);
        };
    }
    Ok(texts)
}
