//! The text of a run.

ghost use Rattle.std.specs.Prelude.{◌≡◌, ◌++◌, OnErr, OnOk};
ghost use Rattle.ledger_text.specs.Ledger.{ended_line, entry_lines, last_line, ledger_text};

use crate::how::How;
use crate::lines::{put_end, put_entry};
use ledger_state::Entry;
use program_model::{ClassId, Program};
use program_texts::{put_class, put_number};
use rlc_base::{NoMemory, Text};
use std::alloc::Global;

fn put_ended(p: &Program, class: Option<ClassId>, into: &mut Text) -> Result<(), NoMemory>
    ensures { OnOk result (into.new ≡ into.old ++ ended_line p.now class) }
{
    match class {
        None => into.push_bytes(b"ended\n"),
        Some(class) => {
            into.push_bytes(b"ended by ")?;
            put_class(p, class, into)?;
            into.push_bytes(b"\n")
        }
    }
}

// The last line: how the run ended, where `n` steps were asked for.
fn put_last(
    alloc: Global,
    p: &Program,
    files: &[Text],
    how: How,
    n: u32,
    into: &mut Text,
) -> Result<(), NoMemory>
    ensures { OnOk result (into.new ≡ into.old ++ last_line p.now files.now how n) }
{
    match how {
        How::Ended(class) => put_ended(p, class, into),
        How::Stray(class, pos) => {
            into.push_bytes(b"stray ")?;
            put_class(p, class, into)?;
            put_end(alloc, files, pos, into)
        }
        How::Cut => {
            into.push_bytes(b"cut after ")?;
            put_number(alloc, u64::from(n), into)?;
            into.push_bytes(b" steps\n")
        }
    }
}

// The lines of the entries, in their order.
fn put_entries(
    alloc: Global,
    p: &Program,
    files: &[Text],
    entries: &[Entry],
    into: &mut Text,
) -> Result<(), NoMemory>
    ensures { OnOk result (into.new ≡ into.old ++ entry_lines p.now files.now entries.now) }
{
    'each: for entry in entries {
        put_entry(alloc, p, files, *entry, into)?;
    }
    Ok(())
}

/// Appends the text of a run: a line for each entry of its ledger, and a last line that says how it ended, where `n` steps
/// were asked for. `files` are the names of the files by their numbers. Where memory runs out the text stays as it was.
pub fn print_entries(
    alloc: Global,
    p: &Program,
    files: &[Text],
    entries: &[Entry],
    how: How,
    n: u32,
    into: &mut Text,
) -> Result<(), NoMemory>
    ensures printed { OnOk result (into.new ≡ into.old ++ ledger_text p.now files.now entries.now how n) }
    ensures kept { OnErr result (into.new ≡ into.old) }
{
    let mut text = Text::new(alloc);
    put_entries(alloc, p, files, entries, &mut text)?;
    put_last(alloc, p, files, how, n, &mut text)?;
    into.push_bytes(text.bytes())
}
