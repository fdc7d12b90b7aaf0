//! The files of a command by their numbers.

ghost use Rattle.std.specs.Prelude.{◌≡◌, ◌<◌, ◌^◌, length, map, IfOk};
ghost use Rattle.file_numbers.specs.Numbering.{number_and_bytes};
ghost use Rattle.command_trees.specs.Inputs.{source_files, stub_files};

use file_numbers::files_of_kind;
use program_front::InputFile;
use rlc_base::{NoMemory, Text};
use std::alloc::Global;
use stub_files::core_text;

/// The stub files: the core stub, which is file 0, and those that the words name, numbered from 1 on.
///
/// # Errors
///
/// Memory may run out.
pub fn stub_inputs<'a>(
    alloc: Global,
    words: &[&str],
    texts: &'a [Text],
) -> Result<Vec<InputFile<'a>>, NoMemory>
    requires { length words.now < 2 ^ 31 }
    ensures { IfOk result (λ files. map number_and_bytes files.items ≡ stub_files (map (λ word. word.now) words.now) texts.entry.now) }
{
    let mut files = files_of_kind(alloc, true, 1, words, texts)?;
    files.insert(
        0,
        InputFile {
            number: 0,
            bytes: core_text(),
        },
    )?;
    Ok(files)
}

/// The Java sources that the words name, numbered behind the stub files, of which there are so many.
///
/// # Errors
///
/// Memory may run out.
pub fn source_inputs<'a>(
    alloc: Global,
    stubs: &[InputFile<'_>],
    words: &[&str],
    texts: &'a [Text],
) -> Result<Vec<InputFile<'a>>, NoMemory>
    requires few { length words.now < 2 ^ 31 }
    requires stubs { map number_and_bytes stubs.now ≡ stub_files (map (λ word. word.now) words.now) texts.now }
    ensures { IfOk result (λ files. map number_and_bytes files.items ≡ source_files (map (λ word. word.now) words.now) texts.entry.now) }
{
    files_of_kind(alloc, false, stubs.len() as u32, words, texts)
}
