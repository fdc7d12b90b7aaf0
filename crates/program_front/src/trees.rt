//! The trees of all files.

ghost use Rattle.std.specs.Prelude.{All, IfErr, IfOk};
ghost use Rattle.program_front.specs.Files.{IsShort};
ghost use Rattle.program_front.specs.Trees.{AreTrees, IsTreesStop};

use crate::files::InputFile;
use crate::lexing::lex_files;
use crate::parsing::{parse_sources, parse_stubs};
use java_syntax::Unit;
use rlc_base::Stop;
use std::alloc::Global;

/// The syntax trees of a check.
#[derive(Drop)]
pub struct Trees {
    /// Of each stub file its sections, each as a unit.
    pub stubs: Vec<Vec<Unit>>,
    /// The Java sources.
    pub sources: Vec<Unit>,
}

/// The trees of the stub files and the Java sources. All files are cut into tokens before one is parsed, the stubs come
/// before the sources, and each group is taken in its order.
///
/// # Errors
///
/// As by `lex` for the first file that has no cut; else as by `parse_stub` or `parse_unit` for the first that has no tree.
/// Memory may run out.
pub fn read_trees(
    alloc: Global,
    stubs: &[InputFile<'_>],
    sources: &[InputFile<'_>],
) -> Result<Trees, Stop>
    requires stubs { All IsShort stubs.now }
    requires sources { All IsShort sources.now }
    ensures trees { IfOk result (AreTrees stubs.now sources.now) }
    ensures stopped { IfErr result (IsTreesStop stubs.now sources.now) }
{
    let cut_stubs = match lex_files(alloc, stubs) {
        Ok(cut) => cut,
        Err(stop) => return Err(stop),
    };
    let cut_sources = match lex_files(alloc, sources) {
        Ok(cut) => cut,
        Err(stop) => return Err(stop),
    };
    let stub_units = match parse_stubs(alloc, &cut_stubs) {
        Ok(units) => units,
        Err(stop) => return Err(stop),
    };
    match parse_sources(alloc, &cut_sources) {
        Ok(source_units) => Ok(Trees {
            stubs: stub_units,
            sources: source_units,
        }),
        Err(stop) => Err(stop),
    }
}
