// The program of a case: its section `file`, under the settings that its section `settings` says, or the default ones.

use case_files::{Case, FormFail};
use java_syntax::Settings;
use program_model::Program;
use program_reading::read_program;
use rlc_base::{Stop, Text};
use settings_file::{default_settings, read_settings};
use std::alloc::Global;

// More bytes than a file may have.
const MOST: usize = 2_000_000;

// What the first section with this head stands for.
fn content_of(alloc: Global, case: &Case, head: &str) -> Result<Option<Vec<u8>>, FormFail> {
    for section in &case.sections {
        if section.head.as_str() == head {
            return Ok(Some(section.content(alloc, &section.body)?));
        }
    }
    Ok(None)
}

fn settings_of(alloc: Global, case: &Case) -> Result<Settings, FormFail> {
    match content_of(alloc, case, "settings")? {
        None => Ok(default_settings(alloc)?),
        Some(bytes) => match read_settings(alloc, 0, &bytes) {
            Ok(settings) => Ok(settings),
            Err(Stop::NoMemory) => Err(FormFail::NoMemory),
            Err(_stop) => Err(FormFail::Section),
        },
    }
}

/// The program of a case, or why there is none.
///
/// # Errors
///
/// `Section` where the case has no section `file`, one that is too long, or settings that are malformed; `Escape` where an escape is.
/// Memory may run out.
pub fn program_of(alloc: Global, case: &Case) -> Result<Result<Program, Stop>, FormFail> {
    let settings = settings_of(alloc, case)?;
    let Some(bytes) = content_of(alloc, case, "file")? else {
        return Err(FormFail::Section);
    };
    if MOST <= bytes.len() {
        return Err(FormFail::Section);
    }
    let texts = [Text::from_bytes(bytes)];
    Ok(read_program(alloc, &settings, &["A.java"], &texts))
}
