//! Reading the files of a command.

ghost use Rattle.std.specs.Prelude.{◌≡◌, ◌≤◌, map, string_bytes, IfOk};
ghost use Rattle.source_files.specs.Reading.{HasAll, max_text};
ghost use Rattle.input_files.specs.Inputs.{IsInputReading};

use crate::stops::stop_answer;
use command_answers::Answer;
use outside::Files;
use rlc_base::{NoMemory, Text};
use source_files::read_all;
use std::alloc::Global;

/// What reading the files of a command came to.
#[derive(Debug, Drop)]
pub enum ReadOutcome {
    /// The files were read: their texts, in the order of their names.
    Texts(Vec<Text>),
    /// A file could not be read, or passes a limit.
    Answered(Answer),
}

/// Reads the files of these names, in this order, where `held` bytes were read before. The first that can't be read gives the answer `ReadFault`, and the first
/// that is longer than a file may be, or with which all are longer than they may be together, gives `Limit`; the line names
/// the file. Over files that are all there and sound no fault is counted (`holds`).
pub fn read_inputs<F: Files>(
    alloc: Global,
    held: usize,
    names: &[String],
    files: &mut F,
) -> Result<ReadOutcome, NoMemory>
    requires { held ≤ max_text }
    ensures read { IfOk result (IsInputReading (F.contents files.old) held (map string_bytes names.now) (record { faults = F.faults files.old; faults_now = F.faults files.new; taken = F.taken files.old; taken_now = F.taken files.new })) }
    ensures told { F.contents files.new ≡ F.contents files.old }
    ensures holds { F.sound files.old → HasAll (F.contents files.old) (map string_bytes names.now) → F.faults files.new ≡ F.faults files.old }
    ensures stays_sound { F.sound files.old → F.sound files.new }
    ensures never_falls { F.taken files.old ≤ F.taken files.new }
{
    let stop = match read_all(alloc, held, names, files) {
        Ok(texts) => return Ok(ReadOutcome::Texts(texts)),
        Err(stop) => stop,
    };
    let answer = stop_answer(alloc, names, stop)?;
    Ok(ReadOutcome::Answered(answer))
}
