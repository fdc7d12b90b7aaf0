// The lines of a path.

ghost use Rattle.std.specs.Prelude.{◌≡◌, ◌++◌, ◌<◌, filter, length, IfOk, OnOk};
ghost use Rattle.leak_report.specs.Steps.{ends_of, is_shown, path_text, shown_lines, step_line, step_lines};

use crate::words::{action_word, put_edge};
use flow_rules::PathStep;
use program_model::Program;
use program_texts::{put_line, put_number};
use rlc_base::{NoMemory, Text};
use std::alloc::Global;

// Puts the line of a step, if it has one.
fn put_step(alloc: Global, p: &Program, step: PathStep, into: &mut Text) -> Result<(), NoMemory>
    ensures { OnOk result (into.new ≡ into.old ++ step_line p.now step) }
{
    let Some(word) = action_word(step.action) else {
        return Ok(());
    };
    into.push_bytes(b"  ")?;
    put_line(alloc, step.pos, into)?;
    into.push_bytes(b" ")?;
    into.push_bytes(word)?;
    into.push_bytes(b" ")?;
    put_edge(p, step.edge, into)?;
    into.push_bytes(b"\n")
}

// Puts the lines of steps.
fn put_steps(
    alloc: Global,
    p: &Program,
    steps: &[PathStep],
    into: &mut Text,
) -> Result<(), NoMemory>
    ensures { OnOk result (into.new ≡ into.old ++ step_lines p.now steps.now) }
{
    'each: for step in steps {
        put_step(alloc, p, *step, into)?;
    }
    Ok(())
}

// Whether a step has a line.
fn is_shown(step: &PathStep) -> bool
    ensures { result ≡ is_shown step.now }
{
    action_word(step.action).is_some()
}

// The steps that have a line.
fn shown_steps(alloc: Global, path: &[PathStep]) -> Result<Vec<PathStep>, NoMemory>
    ensures { IfOk result (λ shown. shown.items ≡ filter is_shown path.now) }
{
    let mut shown = Vec::new(alloc);
    'each: for step in path {
        if is_shown(step) {
            shown.push(*step)?;
        }
    }
    Ok(shown)
}

// Puts the first 100 and the last 100 lines of more than 200, with the number of those between them.
fn put_ends(alloc: Global, p: &Program, shown: &[PathStep], into: &mut Text) -> Result<(), NoMemory>
    requires { 200 < length shown.now }
    ensures { OnOk result (into.new ≡ into.old ++ ends_of p.now shown.now) }
{
    let count = shown.len();
    put_steps(alloc, p, &shown[..100], into)?;
    into.push_bytes(b"  .. ")?;
    put_number(alloc, (count - 200) as u64, into)?;
    into.push_bytes(b" steps\n")?;
    put_steps(alloc, p, &shown[count - 100..], into)
}

// Puts these lines, or without their middle where they are many.
fn put_shown(
    alloc: Global,
    p: &Program,
    shown: &[PathStep],
    into: &mut Text,
) -> Result<(), NoMemory>
    ensures { OnOk result (into.new ≡ into.old ++ shown_lines p.now shown.now) }
{
    if shown.len() > 200 {
        return put_ends(alloc, p, shown, into);
    }
    put_steps(alloc, p, shown, into)
}

/// Puts the lines of a path; of a path with more than 200 lines the first 100 and the last 100, with the number of those
/// between them.
pub(crate) fn put_path(
    alloc: Global,
    p: &Program,
    path: &[PathStep],
    into: &mut Text,
) -> Result<(), NoMemory>
    ensures { OnOk result (into.new ≡ into.old ++ path_text p.now path.now) }
{
    let shown = shown_steps(alloc, path)?;
    put_shown(alloc, p, &shown, into)
}
