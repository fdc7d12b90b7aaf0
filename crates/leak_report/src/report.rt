ghost use Rattle.std.specs.Prelude.{◌≡◌, ◌++◌, OnErr, OnOk};
ghost use Rattle.leak_report.specs.Reports.{head_line, origin_line, report_text};

use crate::names::put_missing;
use crate::steps::put_path;
use crate::words::{origin_word, rule_word};
use control_actions::{Origin, Rule};
use flow_rules::PathStep;
use program_model::Program;
use program_texts::{put_class, put_line, put_place};
use rlc_base::{NameSet, NoMemory, Pos, Text};
use std::alloc::Global;

/// A leak: an obligation that is not met, the rule that is broken, where, and a path that shows it.
#[derive(Drop)]
pub struct Report {
    pub origin: Origin,
    pub rule: Rule,
    /// The place of the step that breaks the rule.
    pub at: Pos,
    /// The methods that were not called, or may be not.
    pub missing: NameSet,
    /// The steps from the start of the body on; the last one breaks the rule.
    pub path: Vec<PathStep>,
}

// The first line: the place, the rule and the missing names.
fn put_head(
    alloc: Global,
    p: &Program,
    files: &[Text],
    r: &Report,
    into: &mut Text,
) -> Result<(), NoMemory>
    ensures { OnOk result (into.new ≡ into.old ++ head_line p.now files.now r.now) }
{
    put_place(alloc, files, r.at, into)?;
    into.push_bytes(b": ")?;
    into.push_bytes(rule_word(r.rule))?;
    into.push_bytes(b" missing")?;
    put_missing(alloc, p, r.missing, into)?;
    into.push_bytes(b"\n")
}

// The second line: how, on what and where the obligation began.
fn put_origin(alloc: Global, p: &Program, origin: Origin, into: &mut Text) -> Result<(), NoMemory>
    ensures { OnOk result (into.new ≡ into.old ++ origin_line p.now origin) }
{
    into.push_bytes(b"  origin ")?;
    into.push_bytes(origin_word(origin.kind))?;
    into.push_bytes(b" ")?;
    put_class(p, origin.class, into)?;
    into.push_bytes(b" ")?;
    put_line(alloc, origin.pos, into)?;
    into.push_bytes(b"\n")
}

/// Appends the text of a report: the place, the rule and the missing names; the origin of the obligation; and a line for each
/// step of the path, of more than 200 the first and the last 100. `files` are the names of the files by their numbers. Where
/// memory runs out the text stays as it was.
pub fn print_report(
    alloc: Global,
    p: &Program,
    files: &[Text],
    r: &Report,
    into: &mut Text,
) -> Result<(), NoMemory>
    ensures printed { OnOk result (into.new ≡ into.old ++ report_text p.now files.now r.now) }
    ensures kept { OnErr result (into.new ≡ into.old) }
{
    let mut text = Text::new(alloc);
    put_head(alloc, p, files, r, &mut text)?;
    put_origin(alloc, p, r.origin, &mut text)?;
    put_path(alloc, p, &r.path, &mut text)?;
    into.push_bytes(text.bytes())
}
