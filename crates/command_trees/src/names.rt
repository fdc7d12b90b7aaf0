//! The names of the files by their numbers.

ghost use Rattle.std.specs.Prelude.{◌≡◌, ◌++◌, ◌∷◌, [], ℕ, true, Some, List, filter, length, map, slice_get, IfOk, OnOk};
ghost use Rattle.file_numbers.specs.Numbering.{is_of_kind, numbered_files};
ghost use Rattle.command_trees.specs.Inputs.{IsFileOfWord, file_names, source_files};

use file_numbers::is_stub;
use rlc_base::{NoMemory, Text};
use std::alloc::Global;
use stub_files::CORE_NAME;

// Puts a name at the end.
fn put(alloc: Global, names: &mut Vec<Text>, name: &str) -> Result<(), NoMemory>
    ensures { OnOk result (names.new.items ≡ names.old.items ++ name.now ∷ []) }
{
    let bytes = name.as_bytes().to_vec(alloc)?;
    names.push(Text::from_bytes(bytes))?;
    Ok(())
}

// Puts the words that name stub files, or Java sources, at the end.
fn put_kind(
    alloc: Global,
    names: &mut Vec<Text>,
    stubs: bool,
    words: &[&str],
) -> Result<(), NoMemory>
    ensures { OnOk result (names.new.items ≡ names.old.items ++ filter (is_of_kind stubs) (map (λ word. word.now) words.now)) }
{
    let [word, words @ ..] = words else {
        return Ok(());
    };
    if is_stub(word) == stubs {
        put(alloc, names, word)?;
    }
    put_kind(alloc, names, stubs, words)
}

/// The names of the files by their numbers, as refusals and reports show them: of the core stub, then the words that name stub files,
/// then those that name Java sources.
///
/// # Errors
///
/// Memory may run out.
pub fn file_names(alloc: Global, words: &[&str]) -> Result<Vec<Text>, NoMemory>
    ensures { IfOk result (λ v. v.items ≡ file_names (map (λ word. word.now) words.now)) }
{
    let mut names = Vec::new(alloc);
    put(alloc, &mut names, CORE_NAME)?;
    put_kind(alloc, &mut names, true, words)?;
    put_kind(alloc, &mut names, false, words)?;
    Ok(names)
}

/// The law that file names and file numbers agree: each stub file but the core stub, and each Java source, is that of a word, and the
/// word stands at the file's number among the names. The law is the contract of a function that does nothing.
pub fn files_have_their_names()
    ensures stubs { (words texts : List (List ℕ)) (k number : ℕ) (bytes : List ℕ) → slice_get (numbered_files true 1 words texts) k ≡ Some (number, bytes) → IsFileOfWord words texts number bytes }
    ensures sources { (words texts : List (List ℕ)) (k number : ℕ) (bytes : List ℕ) → length words ≡ length texts → slice_get (source_files words texts) k ≡ Some (number, bytes) → IsFileOfWord words texts number bytes }
{}
