//! Words and files in, status and text out.

ghost use Rattle.std.specs.Prelude.{◌≡◌, ◌<◌, map, string_bytes};
ghost use Rattle.command_answers.specs.Sending.{IsWriteStatus};
ghost use Rattle.command_words.specs.Requests.{request_in};
ghost use Rattle.rlc_cli.specs.Answers.{HasAllNamed, IsAfterReadFault, IsAnswered};
ghost use Rattle.rlc_cli.specs.Headline.{IsHeadline};

use crate::requests::answer;
use command_answers::{Status, send};
use outside::{Files, Sink};
use rlc_base::NoMemory;
use std::alloc::Global;

/// Does what the words ask for. `check` reports the leaks of the program of its files, `run` runs a `main` of it and writes the
/// ledger, `gen` says how many leaks a generated program has, `settings` prints a settings file in the newest version, `certify` writes a certificate of
/// an accepted program, and `verify` says whether a text is one; other words are `Usage`. The text of the answer is made whole before
/// the first write.
///
/// Each status has its cause (`answered`). `check` is `Accepted` where its files make a program that is well formed and in which no path
/// of a body breaks a rule, so that it is safe in every run, and
/// `Leaks` where they derive one; `verify` is `Accepted` where the text is a certificate of the program, which is then accepted (`headline`). A count of faults of writing that rose comes with `WriteFault`, and with it alone
/// (`write_rose`); one of reading comes with `ReadFault`, unless writing the line fails or memory runs out (`read_rose`). Over files that
/// are all there and sound no fault of reading comes (`files_hold`), and `WriteFault` comes only where the sink is not sure of room for the
/// text. Want of memory may come at any time, and then nothing was written.
pub fn rlc<F: Files, O: Sink>(alloc: Global, words: &[String], files: &mut F, out: &mut O) -> Status
    ensures answered { IsAnswered (F.contents files.old) (record { faults = F.faults files.old; faults_now = F.faults files.new; taken = F.taken files.old; taken_now = F.taken files.new }) (request_in (map string_bytes words.now)) (O.sure out.old) (O.bytes out.old) (O.bytes out.new) result }
    ensures headline { IsHeadline (F.contents files.old) (request_in (map string_bytes words.now)) result }
    ensures files_told { F.contents files.new ≡ F.contents files.old }
    ensures write_rose { IsWriteStatus (O.faults out.old) (O.faults out.new) result }
    ensures read_rose { F.faults files.old < F.faults files.new → IsAfterReadFault result }
    ensures files_hold { F.sound files.old → HasAllNamed (F.contents files.old) (request_in (map string_bytes words.now)) → F.faults files.new ≡ F.faults files.old }
{
    match answer(alloc, words, files) {
        Ok(answer) => send(&answer, out),
        Err(NoMemory) => Status::NoMemory,
    }
}
