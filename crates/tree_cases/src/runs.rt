//! The rows of a file, run one after the other.

use crate::answers::answer;
use crate::rows::{Row, first_row};
use crate::texts::{Texts, texts_of};
use case_files::{Case, Count, Cut, FormFail, Section, read_cases, same_text};
use outside::Files;
use std::alloc::Global;

// Whether the text of a row has the answer that is wanted; prints the row where it has another.
fn run_row(
    rt: &impl Print,
    alloc: Global,
    texts: &Texts,
    section: &Section,
    row: &Row,
) -> Result<bool, Cut> {
    let text = section.content(alloc, row.text)?;
    let wanted = section.content(alloc, row.wanted)?;
    let given = answer(alloc, texts, &text)?;
    if same_text(given.as_bytes(), &wanted) {
        return Ok(true);
    }
    println!(rt; "{}\n=> {}\nbut given: {given}", row.text, row.wanted)?;
    Ok(false)
}

// Runs the rows of one section.
fn run_section(
    rt: &impl Print,
    alloc: Global,
    section: &Section,
    count: &mut Count,
) -> Result<(), Cut> {
    let Some(texts) = texts_of(&section.head) else {
        return Err(Cut::Form(FormFail::Section));
    };
    let mut rows = section.body.as_str();
    for _ in 0..section.body.len() {
        if rows.is_empty() {
            break;
        }
        let Some(row) = first_row(rows) else {
            return Err(Cut::Form(FormFail::Section));
        };
        count.add(run_row(rt, alloc, &texts, section, &row)?);
        rows = row.rest;
    }
    Ok(())
}

// Runs the sections of one case. One of which a row has another answer is named.
fn run_case(
    rt: &impl Print,
    alloc: Global,
    file: &str,
    case: &Case,
    count: &mut Count,
) -> Result<(), Cut> {
    for section in &case.sections {
        let failed = count.failed;
        run_section(rt, alloc, section, count)?;
        if failed != count.failed {
            println!(rt; "above: {file}: {}: {}", case.name, section.head)?;
        }
    }
    Ok(())
}

/// Runs the rows of one file. Prints each row whose answer is another than the one that is wanted, and counts the rows that passed and
/// failed.
///
/// # Errors
///
/// `Form` where the file or a case is malformed, or memory runs out; what was counted before stays counted. `Output` where a row
/// could not be printed.
pub fn run_file<F: Files>(
    rt: &impl Print,
    alloc: Global,
    files: &mut F,
    file: &str,
    count: &mut Count,
) -> Result<(), Cut> {
    for case in &read_cases(alloc, files, file)? {
        run_case(rt, alloc, file, case, count)?;
    }
    Ok(())
}
