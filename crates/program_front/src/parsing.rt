//! Parsing files that are cut into tokens.

ghost use Rattle.std.specs.Prelude.{All, IfErr, IfOk};
ghost use Rattle.program_front.specs.Files.{AreSectionsOf, IsSectionless, IsShortCut, IsUnitOf, IsUnitless};
ghost use Rattle.program_front.specs.InTurn.{IsInTurn};

use crate::files::CutFile;
use java_lexer::Source;
use java_parser::{parse_stub, parse_unit};
use java_syntax::Unit;
use rlc_base::Stop;
use std::alloc::Global;

// The tree of a Java source.
fn parse_source(alloc: Global, cut: &CutFile<'_>) -> Result<Unit, Stop>
    requires { IsShortCut cut.now }
    ensures unit { IfOk result (IsUnitOf cut.now) }
    ensures stopped { IfErr result (IsUnitless cut.now) }
{
    let source = Source {
        file: cut.file.number,
        bytes: cut.file.bytes,
        tokens: cut.tokens.as_slice(),
    };
    parse_unit(alloc, &source)
}

// The sections of a stub file.
fn parse_sections(alloc: Global, cut: &CutFile<'_>) -> Result<Vec<Unit>, Stop>
    requires { IsShortCut cut.now }
    ensures sections { IfOk result (AreSectionsOf cut.now) }
    ensures stopped { IfErr result (IsSectionless cut.now) }
{
    let source = Source {
        file: cut.file.number,
        bytes: cut.file.bytes,
        tokens: cut.tokens.as_slice(),
    };
    parse_stub(alloc, &source)
}

/// The trees of Java sources (JLS 7.3), in their order. The first that has none stops it, as by `parse_unit`.
pub fn parse_sources(alloc: Global, files: &[CutFile<'_>]) -> Result<Vec<Unit>, Stop>
    requires { All IsShortCut files.now }
    ensures { IsInTurn IsUnitOf IsUnitless files.now result }
{
    let mut units = Vec::new(alloc);
    'each: for file in files {
        let unit = match parse_source(alloc, file) {
            Ok(unit) => unit,
            Err(stop) => return Err(stop),
        };
        let Ok(()) = units.push(unit) else {
            return Err(Stop::NoMemory);
        };
    }
    Ok(units)
}

/// The sections of stub files, in their order. The first file that is no stub file stops it, as by `parse_stub`.
pub fn parse_stubs(alloc: Global, files: &[CutFile<'_>]) -> Result<Vec<Vec<Unit>>, Stop>
    requires { All IsShortCut files.now }
    ensures { IsInTurn AreSectionsOf IsSectionless files.now result }
{
    let mut stubs = Vec::new(alloc);
    'each: for file in files {
        let sections = match parse_sections(alloc, file) {
            Ok(sections) => sections,
            Err(stop) => return Err(stop),
        };
        let Ok(()) = stubs.push(sections) else {
            return Err(Stop::NoMemory);
        };
    }
    Ok(stubs)
}
