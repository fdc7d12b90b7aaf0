//! The leaks of a step.

ghost use Rattle.std.specs.Prelude.{◌≡◌, ◌++◌, OnOk};
ghost use Rattle.program_model.specs.Lookups.{optional};
ghost use Rattle.ledger_entries.specs.Entries.{by_number, is_lost};
ghost use Rattle.ledger_state.specs.Contents.{HeapContents};
ghost use Rattle.draft_lines.specs.DraftLines.{AllOfHeap, leak_by, leak_changes, leak_entries_of, leak_entry, leaks_of_change};

use crate::change::ObjectChange;
use crate::lines::owner_before;
use ledger_state::{Entry, LeakWord, Owner};
use must_call_sets::is_heavy_class;
use program_model::Program;
use rlc_base::{NoMemory, Pos};

/// That the object with this number is lost at a place of the program.
#[derive(Clone, Copy)]
pub struct Leak {
    pub number: u64,
    pub word: LeakWord,
    pub pos: Pos,
}

fn is_lost(owner: Owner) -> bool
    ensures { result ≡ is_lost owner }
{
    matches!(owner, Owner::Lost)
}

fn leak_by(word: LeakWord, pos: Pos, change: &ObjectChange) -> Option<Leak>
    ensures { result ≡ leak_by word pos change.now }
{
    if is_lost(change.after.owner) && !is_lost(owner_before(change.before)) {
        let number = change.number;
        Some(Leak { number, word, pos })
    } else {
        None
    }
}

// Objects whose class has no must-call set have no lines.
fn add_leak(
    p: &Program,
    word: LeakWord,
    pos: Pos,
    change: &ObjectChange,
    into: &mut Vec<Leak>,
) -> Result<(), NoMemory>
    ensures { OnOk result (into.new.items ≡ into.old.items ++ leaks_of_change p.now word pos change.now) }
{
    if !is_heavy_class(p, change.after.class) {
        return Ok(());
    }
    match leak_by(word, pos, change) {
        None => Ok(()),
        Some(leak) => {
            into.push(leak)?;
            Ok(())
        }
    }
}

/// Puts behind `into` a leak for each change by which an object is lost that was not before.
pub fn add_leaks(
    p: &Program,
    word: LeakWord,
    pos: Pos,
    changes: &[ObjectChange],
    into: &mut Vec<Leak>,
) -> Result<(), NoMemory>
    ensures { OnOk result (into.new.items ≡ into.old.items ++ leak_changes p.now word pos changes.now) }
{
    'each: for change in changes {
        add_leak(p, word, pos, change, into)?;
    }
    Ok(())
}

fn leak_entry(leak: Leak) -> Entry
    ensures { result ≡ leak_entry leak }
{
    Entry::Leak(leak.number, leak.word, leak.pos)
}

/// Puts the lines of the leaks behind `into`, as they stand.
pub fn add_leak_lines(leaks: &[Leak], into: &mut Vec<Entry>) -> Result<(), NoMemory>
    ensures { OnOk result (into.new.items ≡ into.old.items ++ leak_entries_of leaks.now) }
{
    'each: for leak in leaks {
        into.push(leak_entry(*leak))?;
    }
    Ok(())
}

/// Puts the lines of a step's leaks behind `into`, by the numbers of the objects, which are objects of the heap after the step.
pub fn add_by_number(leaks: Vec<Leak>, into: &mut Vec<Entry>) -> Result<(), NoMemory>
    ensures { OnOk result ((h : HeapContents) → AllOfHeap h leaks.items → into.new.items ≡ into.old.items ++ by_number h (leak_entries_of leaks.items)) }
{
    let mut sorted = leaks;
    sorted.sort_by_key(|leak| leak.number)?;
    add_leak_lines(&sorted, into)?;
    Ok(())
}
