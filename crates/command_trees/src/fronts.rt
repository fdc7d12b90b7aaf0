//! The trees of the files of a command.

ghost use Rattle.std.specs.Prelude.{◌≡◌, ◌-◌, ◌<◌, ◌^◌, flat_map, length, map, All, IfErr, IfOk};
ghost use Rattle.command_trees.specs.Fronts.{HasTrees, IsFilesStop, IsFront};

use crate::inputs::{source_inputs, stub_inputs};
use java_syntax::Unit;
use program_front::{Trees, read_trees};
use rlc_base::{NoMemory, Stop, Text};
use std::alloc::Global;

/// The trees of the files of a command.
#[derive(Drop)]
pub struct SourceTrees {
    /// The sections of all stub files, in their order.
    pub sections: Vec<Unit>,
    /// The Java sources.
    pub sources: Vec<Unit>,
}

// All sections of the stub files.
fn joined(alloc: Global, stubs: Vec<Vec<Unit>>) -> Result<Vec<Unit>, NoMemory>
    ensures { IfOk result (λ v. v.items ≡ flat_map (λ sections. sections.items) stubs.items) }
{
    let mut all = Vec::new(alloc);
    for mut sections in stubs {
        all.append(&mut sections)?;
    }
    Ok(all)
}

// The trees of all files.
fn trees_of(alloc: Global, words: &[&str], texts: &[Text]) -> Result<Trees, Stop>
    requires few { length words.now < 2 ^ 31 }
    requires short { All (λ text. length text < 2 ^ 32 - 1) texts.now }
    ensures trees { IfOk result (HasTrees (map (λ word. word.now) words.now) texts.now) }
    ensures stopped { IfErr result (IsFilesStop (map (λ word. word.now) words.now) texts.now) }
{
    let stubs = stub_inputs(alloc, words, texts)?;
    let sources = source_inputs(alloc, &stubs, words, texts)?;
    read_trees(alloc, &stubs, &sources)
}

/// The trees of the files of a command: first all files are cut into tokens, then all parsed, the stub files before the sources.
///
/// # Errors
///
/// As by `read_trees`. Memory may run out.
pub fn front(alloc: Global, words: &[&str], texts: &[Text]) -> Result<SourceTrees, Stop>
    requires few { length words.now < 2 ^ 31 }
    requires short { All (λ text. length text < 2 ^ 32 - 1) texts.now }
    ensures front { IfOk result (λ t. IsFront (map (λ word. word.now) words.now) texts.now t.sections.items t.sources.items) }
    ensures stopped { IfErr result (IsFilesStop (map (λ word. word.now) words.now) texts.now) }
{
    let Trees { stubs, sources } = trees_of(alloc, words, texts)?;
    match joined(alloc, stubs) {
        Ok(sections) => Ok(SourceTrees { sections, sources }),
        Err(error) => Err(error.into()),
    }
}
