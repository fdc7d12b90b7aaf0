//! The numbers of the files that the words name.

ghost use Rattle.std.specs.Prelude.{◌≡◌, ◌+◌, ◌++◌, ◌∷◌, [], ◌<◌, ◌^◌, length, map, IfOk, OnOk};
ghost use Rattle.file_numbers.specs.Numbering.{is_stub_name, numbered_files, number_and_bytes};

use program_front::InputFile;
use rlc_base::{NoMemory, Text};
use std::alloc::Global;

/// Whether a word names a stub file. Every other file word names a Java source.
pub fn is_stub(name: &str) -> bool
    ensures { result ≡ is_stub_name name.now }
{
    name.as_bytes().ends_with(b".astub")
}

// Puts a file at the end.
fn put<'a>(files: &mut Vec<InputFile<'a>>, number: u32, bytes: &'a [u8]) -> Result<(), NoMemory>
    ensures { OnOk result (map number_and_bytes files.new.items ≡ map number_and_bytes files.old.items ++ (number, bytes.entry.now) ∷ []) }
{
    files.push(InputFile { number, bytes })?;
    Ok(())
}

// Puts the files of a kind at the end, numbered from `first` on.
fn put_kind<'a>(
    files: &mut Vec<InputFile<'a>>,
    stubs: bool,
    first: u32,
    names: &[&str],
    texts: &'a [Text],
) -> Result<(), NoMemory>
    requires { first + length names.now < 2 ^ 32 }
    ensures { OnOk result (map number_and_bytes files.new.items ≡ map number_and_bytes files.old.items ++ numbered_files stubs first (map (λ name. name.now) names.now) texts.entry.now) }
{
    let [name, names @ ..] = names else {
        return Ok(());
    };
    let [text, texts @ ..] = texts else {
        return Ok(());
    };
    if is_stub(name) != stubs {
        return put_kind(files, stubs, first, names, texts);
    }
    put(files, first, text.bytes())?;
    put_kind(files, stubs, first + 1, names, texts)
}

/// The stub files, or the Java sources, among the files that the words name, in the order of the words and numbered from
/// `first` on. File 0 is the core stub: the stubs are numbered from 1 on, and the sources behind them.
pub fn files_of_kind<'a>(
    alloc: Global,
    stubs: bool,
    first: u32,
    names: &[&str],
    texts: &'a [Text],
) -> Result<Vec<InputFile<'a>>, NoMemory>
    requires { first + length names.now < 2 ^ 32 }
    ensures { IfOk result (λ files. map number_and_bytes files.items ≡ numbered_files stubs first (map (λ name. name.now) names.now) texts.entry.now) }
{
    let mut files = Vec::new(alloc);
    put_kind(&mut files, stubs, first, names, texts)?;
    Ok(files)
}
