//! The cases of a file, run one after the other.

use crate::answers::given;
use crate::programs::program_of;
use case_files::{Case, Count, Cut, FormFail, Section, read_cases, same_text};
use outside::Files;
use program_model::Program;
use rlc_base::Stop;
use std::alloc::Global;

// Whether a method has the graph that its section wants; prints the section where it has another. The arcs are compared where more
// than one line is wanted.
fn run_section(
    rt: &impl Print,
    alloc: Global,
    program: &Result<Program, Stop>,
    section: &Section,
    name: &str,
) -> Result<bool, Cut> {
    let with_arcs = 1 < section.body.lines().count();
    let text = given(alloc, program, name.as_bytes(), with_arcs)?;
    if same_text(text.bytes(), section.body.as_bytes()) {
        return Ok(true);
    }
    let words = str::from_utf8(text.bytes()).unwrap_or("bytes that are no text\n");
    println!(rt; "--- {}\n{}but given:\n{words}", section.head, section.body)?;
    Ok(false)
}

// Whether a section says what the program is.
fn is_program_head(head: &str) -> bool {
    head == "file" || head == "settings"
}

// Runs the sections of one case.
fn run_sections(
    rt: &impl Print,
    alloc: Global,
    program: &Result<Program, Stop>,
    case: &Case,
    count: &mut Count,
) -> Result<(), Cut> {
    for section in &case.sections {
        match section.head.strip_prefix("graph of ") {
            Some(name) => count.add(run_section(rt, alloc, program, section, name)?),
            None if is_program_head(&section.head) => {}
            None => return Err(Cut::Form(FormFail::Section)),
        }
    }
    Ok(())
}

// Runs one case. One of which a graph is another is named.
fn run_case(
    rt: &impl Print,
    alloc: Global,
    file: &str,
    case: &Case,
    count: &mut Count,
) -> Result<(), Cut> {
    let failed = count.failed;
    let program = program_of(alloc, case)?;
    run_sections(rt, alloc, &program, case, count)?;
    if failed != count.failed {
        println!(rt; "above: {file}: {}", case.name)?;
    }
    Ok(())
}

/// Runs the cases of one file. Prints each graph that is another than the one that is wanted, and counts the graphs that passed and
/// failed.
///
/// # Errors
///
/// `Form` where the file or a case is malformed, or memory runs out; what was counted before stays counted. `Output` where a graph
/// could not be printed.
pub fn run_file<F: Files>(
    rt: &impl Print,
    alloc: Global,
    files: &mut F,
    file: &str,
    count: &mut Count,
) -> Result<(), Cut> {
    for case in &read_cases(alloc, files, file)? {
        run_case(rt, alloc, file, case, count)?;
    }
    Ok(())
}
