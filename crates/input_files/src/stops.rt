//! The answers where files can't be read.

ghost use Rattle.std.specs.Prelude.{◌≡◌, ◌<◌, Some, map, string_bytes, length, slice_get, IfOk};
ghost use Rattle.input_files.specs.Inputs.{IsInside, IsLimitLine, IsStopLine, IsTooMany};
ghost use Rattle.source_files.specs.declared.stops.ReadingStop.TheVariants as stops;

use command_answers::{Answer, Outcome, placeless, read_fault};
use rlc_base::{Code, NoMemory};
use source_files::ReadingStop;
use std::alloc::Global;

/// The most files that the words may name.
const MOST_FILES: usize = 256;

// The name at a place.
fn name_at(names: &[String], at: usize) -> &str
    requires { at < length names.now }
    ensures { slice_get (map string_bytes names.now) at ≡ Some result.now }
{
    names[at].as_str()
}

// The answer for a file that could not be read.
fn fault_line(alloc: Global, names: &[String], at: usize) -> Result<Answer, NoMemory>
    requires { at < length names.now }
    ensures { IfOk result (IsStopLine (map string_bytes names.now) (stops.Failed at)) }
{
    let name = name_at(names, at);
    let text = read_fault(alloc, name)?;
    let outcome = Outcome::ReadFault;
    Ok(Answer { outcome, text })
}

// The answer for a file that passes a limit.
fn limit_line(alloc: Global, names: &[String], at: usize, code: Code) -> Result<Answer, NoMemory>
    requires { at < length names.now }
    ensures { IfOk result (IsLimitLine code (map string_bytes names.now) at) }
{
    let name = name_at(names, at);
    let text = placeless(alloc, name, code)?;
    let outcome = Outcome::Limit;
    Ok(Answer { outcome, text })
}

/// The answer where reading the files of these names stopped.
pub fn stop_answer(alloc: Global, names: &[String], stop: ReadingStop) -> Result<Answer, NoMemory>
    requires { IsInside (length names.now) stop }
    ensures { IfOk result (IsStopLine (map string_bytes names.now) stop) }
{
    match stop {
        ReadingStop::Failed(at) => fault_line(alloc, names, at),
        ReadingStop::TooBig(at) => limit_line(alloc, names, at, Code::FileTooBig),
        ReadingStop::TooMuch(at) => limit_line(alloc, names, at, Code::TooMuchText),
        ReadingStop::NoMemory => Err(NoMemory),
    }
}

/// The answer where the words name more than 256 files, before one is read: `Limit` with the 257th name. None where they
/// name fewer.
pub fn too_many(alloc: Global, files: &[&str]) -> Result<Option<Answer>, NoMemory>
    ensures { IfOk result (IsTooMany (map (λ name. name.now) files.now)) }
{
    let Some(name) = files.get(MOST_FILES) else {
        return Ok(None);
    };
    let text = placeless(alloc, name, Code::TooManyFiles)?;
    let outcome = Outcome::Limit;
    Ok(Some(Answer { outcome, text }))
}
