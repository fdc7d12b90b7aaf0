//! The counts of a generated program.

ghost use Rattle.std.specs.Prelude.{◌≡◌, ◌==◌, ◌++◌, IfOk, OnOk};
ghost use Rattle.std.specs.Fmt.{decimal};
ghost use Rattle.side_commands.specs.Counts.{count_line, counts_text, outcome_of};

use command_answers::{Answer, Outcome};
use rlc_base::{NoMemory, Text};
use std::alloc::Global;

// Appends a line: a word and a number.
fn push_count(alloc: Global, into: &mut Text, word: &[u8], number: u32) -> Result<(), NoMemory>
    ensures { OnOk result (into.new ≡ into.old ++ count_line word.now number) }
{
    let digits = format!(in alloc; "{number}")?;
    into.push_bytes(word)?;
    into.push_bytes(digits.as_bytes())?;
    into.push_bytes(b"\n")?;
    Ok(())
}

// The lines `methods M` and `faults F`.
fn counts_text(alloc: Global, methods: u32, faults: u32) -> Result<Text, NoMemory>
    ensures { IfOk result (λ text. text ≡ counts_text methods faults) }
{
    let mut text = Text::new(alloc);
    push_count(alloc, &mut text, b"methods ", methods)?;
    push_count(alloc, &mut text, b"faults ", faults)?;
    Ok(text)
}

/// The answer of `gen` for a program of so many methods, in which so many faults are derived: `Leaks` where there is one.
/// The text is the lines `methods M` and `faults F`.
pub fn counts_answer(alloc: Global, methods: u32, faults: u32) -> Result<Answer, NoMemory>
    ensures outcome { IfOk result (λ answer. answer.outcome ≡ outcome_of faults) }
    ensures text { IfOk result (λ answer. answer.text ≡ counts_text methods faults) }
{
    let text = counts_text(alloc, methods, faults)?;
    let outcome = if faults == 0 {
        Outcome::Accepted
    } else {
        Outcome::Leaks
    };
    Ok(Answer { outcome, text })
}
