//! Reading a choices file.

ghost use Rattle.std.specs.Prelude.{◌≡◌, true, ◌-◌, ◌<◌, ◌^◌, ◌==◌, length, map, IfOk, IfErr};
ghost use Rattle.std.specs.List.{slice_split};
ghost use Rattle.rlc_base.specs.Codes.{stop_of};
ghost use Rattle.choices_file.specs.Files.{arguments_in, chosen_in, first_wrong, lines_in, IsRead, IsStopOf};

use crate::line::{Line, meaning};
use rlc_base::{Code, Pos, Refusal, Stop};
use std::alloc::{AllocError, Global};
use stub_conduct::{Choice, Choices};

// The lines of a text, without their line feeds.
fn lines_of(alloc: Global, bytes: &[u8]) -> Result<Vec<&[u8]>, AllocError>
    ensures { IfOk result (λ v. map (λ line. line.now) v.items ≡ slice_split (λ b. b == 10) bytes.now) }
{
    bytes.split(|byte| *byte == b'\n').collect(alloc)
}

// What each line of a text says.
fn meanings(alloc: Global, bytes: &[u8]) -> Result<Vec<Line>, AllocError>
    ensures { IfOk result (λ v. v.items ≡ lines_in bytes.now) }
{
    let lines = lines_of(alloc, bytes)?;
    let mut said = Vec::new(alloc);
    'each: for line in lines.iter() {
        said.push(meaning(line))?;
    }
    Ok(said)
}

// The number of the first line that is none of a choices file.
fn first_wrong(lines: &[Line]) -> Option<u32>
    requires { length lines.now < 2 ^ 32 }
    ensures { result ≡ first_wrong true 1 lines.now }
{
    let mut opens = true;
    let mut number = 0;
    'each: for line in lines {
        number += 1;
        match line {
            Line::Skipped => {}
            Line::Arguments(_count) => {
                if !opens {
                    return Some(number);
                }
                opens = false;
            }
            Line::Chosen(_choice) => opens = false,
            Line::Wrong => return Some(number),
        }
    }
    None
}

// The length of the argument of `main` that the lines say.
fn arguments_in(lines: &[Line]) -> u32
    ensures { result ≡ arguments_in lines.now }
{
    'each: for line in lines {
        if let Line::Arguments(count) = line {
            return *count;
        }
    }
    0
}

// The choices of the lines, in order.
fn chosen_in(alloc: Global, lines: &[Line]) -> Result<Vec<Choice>, AllocError>
    ensures { IfOk result (λ v. v.items ≡ chosen_in lines.now) }
{
    let mut list = Vec::new(alloc);
    'each: for line in lines {
        if let Line::Chosen(choice) = line {
            list.push(*choice)?;
        }
    }
    Ok(list)
}

// The refusal of a line.
fn refused(file: u32, line: u32) -> Stop
    ensures { result ≡ stop_of (record { code = Code.BadChoices; pos = record { file = file; line = line; col = 1 } }) }
{
    let pos = Pos { file, line, col: 1 };
    Refusal {
        code: Code::BadChoices,
        pos,
    }
    .stop()
}

/// The choices that a file says: lines in ASCII, of which the empty ones and those that begin with `#` say nothing. The first other
/// line may be `args N`, the length of the argument of `main`, below 2^31 and 0 where no line says it. Each other line is a way,
/// below 2^32, or a way, a space and a value of 64 bits, 0 where it is absent; numbers are decimal without zeros in front.
/// `Refused` with `BadChoices` at column 1 of the first line that is none of these. `file` is the number of the file, which
/// the refusal keeps. It asks that the file's length has 32 bits.
pub fn read_choices(alloc: Global, file: u32, bytes: &[u8]) -> Result<Choices, Stop>
    requires { length bytes.now < 2 ^ 32 - 1 }
    ensures read { IfOk result (IsRead bytes.now) }
    ensures cause { IfErr result (IsStopOf file bytes.now) }
{
    let lines = meanings(alloc, bytes)?;
    if let Some(line) = first_wrong(&lines) {
        return Err(refused(file, line));
    }
    Ok(Choices {
        args: arguments_in(&lines),
        list: chosen_in(alloc, &lines)?,
    })
}
