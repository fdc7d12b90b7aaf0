//! Cases of whole commands, each run through the top call over files and a sink in memory.

use crate::stubs::StubFile;
use crate::trial::trial_of;
use case_files::{Answer, Case, Count, Cut, agrees, read_cases};
use outside::Files;
use std::alloc::Global;
use std::io;

fn print_answer(rt: &impl Print, head: &str, answer: &Answer) -> io::Result<()> {
    println!(rt; "--- {head}")?;
    println!(rt; "{}", answer.status)?;
    print!(rt;
        "{}",
        str::from_utf8(&answer.text).unwrap_or("bytes that are no text\n")
    )
}

// Runs one case, and prints it where it fails.
fn run_case(
    rt: &impl Print,
    alloc: Global,
    file: &str,
    case: &Case,
    stubs: &[StubFile],
) -> Result<bool, Cut> {
    let trial = trial_of(alloc, case, stubs)?;
    let (comparison, wanted, given) = trial.run(alloc)?;
    if agrees(comparison, &wanted, &given) {
        return Ok(true);
    }
    println!(rt; "=== {file}: {}", case.name)?;
    print_answer(rt, "wanted", &wanted)?;
    print_answer(rt, "given", &given)?;
    Ok(false)
}

// Runs one case, and counts it. A case that is malformed is named with its fault, and counts as one that failed.
fn count_case(
    rt: &impl Print,
    alloc: Global,
    file: &str,
    case: &Case,
    stubs: &[StubFile],
    count: &mut Count,
) -> io::Result<()> {
    match run_case(rt, alloc, file, case, stubs) {
        Ok(has_passed) => count.add(has_passed),
        Err(Cut::Output(error)) => return Err(error),
        Err(Cut::Form(fail)) => {
            count.add(false);
            println!(rt; "=== {file}: {}: {fail}", case.name)?;
        }
    }
    Ok(())
}

/// Runs the cases of one file, which may take these stub files. Prints each case whose answer is another than the one that is wanted,
/// and counts the cases that passed and failed.
///
/// # Errors
///
/// `Form` where the file is no file of cases, or memory runs out. `Output` where a case could not be printed.
pub fn run_file<F: Files>(
    rt: &impl Print,
    alloc: Global,
    files: &mut F,
    file: &str,
    stubs: &[StubFile],
    count: &mut Count,
) -> Result<(), Cut> {
    for case in &read_cases(alloc, files, file)? {
        count_case(rt, alloc, file, case, stubs, count)?;
    }
    Ok(())
}
