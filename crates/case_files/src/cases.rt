ghost use Rattle.std.specs.Prelude.{◌≡◌, ◌<◌, true, false, Option, IfOk, IfErr};
ghost use Rattle.case_files.specs.Faults.{IsCasesFault, IsEscapeFault, IsFileFault};

use crate::escapes::decode;
use crate::faults::FormFail;
use outside::Files;
use std::alloc::Global;

/// A case: what stands under a line `=== NAME`.
#[derive(Drop)]
pub struct Case {
    /// The rest of its line.
    pub name: String,
    /// Its sections, in the order of the text.
    pub sections: Vec<Section>,
}

/// A section of a case: what stands under a line `--- HEAD`.
#[derive(Drop)]
pub struct Section {
    /// The rest of its line, without the word `escaped` at its end.
    pub head: String,
    /// Whether that word stood there.
    pub is_escaped: bool,
    /// Its lines as they stand, each with its line feed.
    pub body: String,
}

impl Section {
    /// What a piece of the body stands for: itself, where the section is not escaped.
    ///
    /// # Errors
    ///
    /// `Escape` where the section is escaped and an escape of the piece is malformed. Memory may run out.
    pub fn content(&self, alloc: Global, piece: &str) -> Result<Vec<u8>, FormFail>
        ensures plain { self.now.is_escaped ≡ false → IfOk result (λ bytes. bytes.items ≡ piece.now) }
        ensures well_formed { self.now.is_escaped ≡ false → IfErr result (λ fail. fail ≡ FormFail.NoMemory) }
        ensures fault { IfErr result IsEscapeFault }
    {
        if self.is_escaped {
            decode(alloc, piece.as_bytes())
        } else {
            Ok(Vec::from_slice(alloc, piece.as_bytes())?)
        }
    }

    // Leaves out an empty line at the end.
    fn leave_out_empty_line(&mut self) {
        if self.body.as_str() == "\n" || self.body.as_str().ends_with("\n\n") {
            self.body.pop();
        }
    }
}

// The section that the last line stood in.
fn last_section(cases: &mut Vec<Case>) -> Option<&mut Section> {
    cases.last_mut()?.sections.last_mut()
}

// A section with this head and no lines.
fn new_section(alloc: Global, head: &str) -> Result<Section, FormFail>
    ensures { IfErr result (λ fail. fail ≡ FormFail.NoMemory) }
{
    let (head, is_escaped) = match head.strip_suffix(" escaped") {
        None => (head, false),
        Some(front) => (front, true),
    };
    Ok(Section {
        head: String::from_str(alloc, head)?,
        is_escaped,
        body: String::new(alloc),
    })
}

// Begins a case with this name.
fn begin_case(alloc: Global, name: &str, cases: &mut Vec<Case>) -> Result<(), FormFail>
    ensures { IfErr result (λ fail. fail ≡ FormFail.NoMemory) }
{
    if let Some(section) = last_section(cases) {
        section.leave_out_empty_line();
    }
    let name = String::from_str(alloc, name)?;
    cases.push(Case {
        name,
        sections: Vec::new(alloc),
    })?;
    Ok(())
}

// Begins a section of the last case, by the line of this number.
fn begin_section(
    alloc: Global,
    number: usize,
    head: &str,
    cases: &mut Vec<Case>,
) -> Result<(), FormFail>
    requires { 0 < number }
    ensures { IfErr result IsCasesFault }
{
    let Some(case) = cases.last_mut() else {
        return Err(FormFail::NoSection(number));
    };
    case.sections.push(new_section(alloc, head)?)?;
    Ok(())
}

// Adds the line of this number to the last section. Outside of sections a line is empty.
fn add_line(number: usize, line: &str, cases: &mut Vec<Case>) -> Result<(), FormFail>
    requires { 0 < number }
    ensures { IfErr result IsCasesFault }
{
    match last_section(cases) {
        Some(section) => {
            section.body.push_str(line)?;
            section.body.push_str("\n")?;
            Ok(())
        }
        None if line.is_empty() => Ok(()),
        None => Err(FormFail::NoSection(number)),
    }
}

/// The cases of a text, in its order.
///
/// # Errors
///
/// `NoSection` with the number of the line, from 1, where a line that is not empty stands in no section, or a section in no case.
/// Memory may run out.
pub fn parse_cases(alloc: Global, text: &str) -> Result<Vec<Case>, FormFail>
    ensures { IfErr result IsCasesFault }
{
    let mut cases = Vec::new(alloc);
    let mut number: usize = 0;
    for line in text.split('\n') {
        number = number.saturating_add(1);
        if let Some(name) = line.strip_prefix("=== ") {
            begin_case(alloc, name, &mut cases)?;
        } else if let Some(head) = line.strip_prefix("--- ") {
            begin_section(alloc, number, head, &mut cases)?;
        } else {
            add_line(number, line, &mut cases)?;
        }
    }
    if let Some(section) = last_section(&mut cases) {
        section.leave_out_empty_line();
    }
    Ok(cases)
}

/// The cases of the file of this name.
///
/// # Errors
///
/// `NotRead` where the store gives no file of this name or one that is too big, `NotText` where it is not UTF-8, and the faults of
/// its text. Memory may run out.
pub fn read_cases<F: Files>(alloc: Global, files: &mut F, name: &str) -> Result<Vec<Case>, FormFail>
    ensures fault { IfErr result IsFileFault }
    ensures files_told { F.contents files.new ≡ F.contents files.old }
{
    let mut bytes = Vec::new(alloc);
    files.read(name, &mut bytes)?;
    match str::from_utf8(&bytes) {
        Ok(text) => parse_cases(alloc, text),
        Err(_) => Err(FormFail::NotText),
    }
}
