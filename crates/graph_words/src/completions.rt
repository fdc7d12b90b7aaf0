// The words of completions.

ghost use Rattle.std.specs.Prelude.{◌≡◌, ◌++◌, OnOk};
ghost use Rattle.graph_words.specs.Places.{at_place, completion_word};

use crate::names::class_word;
use control_actions::Completion;
use program_model::Program;
use program_texts::{put_line, put_number};
use rlc_base::{NoMemory, Pos, Text};
use std::alloc::Global;

// The place where a completion began.
fn put_at(alloc: Global, pos: Pos, into: &mut Text) -> Result<(), NoMemory>
    ensures { OnOk result (into.new ≡ into.old ++ at_place pos) }
{
    into.push_bytes(b"@")?;
    put_line(alloc, pos, into)
}

pub(crate) fn put_completion(
    alloc: Global,
    p: &Program,
    completion: Completion,
    into: &mut Text,
) -> Result<(), NoMemory>
    ensures { OnOk result (into.new ≡ into.old ++ completion_word p.now completion) }
{
    match completion {
        Completion::Break(pos) => {
            into.push_bytes(b"Break")?;
            put_at(alloc, pos, into)
        }
        Completion::Continue(pos) => {
            into.push_bytes(b"Continue")?;
            put_at(alloc, pos, into)
        }
        Completion::Return(pos) => {
            into.push_bytes(b"Return")?;
            put_at(alloc, pos, into)
        }
        Completion::ReturnValue(depth, pos) => {
            into.push_bytes(b"Return(")?;
            put_number(alloc, u64::from(depth), into)?;
            into.push_bytes(b")")?;
            put_at(alloc, pos, into)
        }
        Completion::Throw(depth, class, pos) => {
            into.push_bytes(b"Throw(")?;
            put_number(alloc, u64::from(depth), into)?;
            into.push_bytes(b",")?;
            into.push_bytes(class_word(p, class))?;
            into.push_bytes(b")")?;
            put_at(alloc, pos, into)
        }
    }
}
