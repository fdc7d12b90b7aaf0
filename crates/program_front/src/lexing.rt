//! Cutting files into tokens.

ghost use Rattle.std.specs.Prelude.{All};
ghost use Rattle.program_front.specs.Files.{IsCutOf, IsShort, IsUncut};
ghost use Rattle.program_front.specs.InTurn.{IsInTurn};

use crate::files::{CutFile, InputFile};
use java_lexer::lex;
use rlc_base::Stop;
use std::alloc::Global;

/// Cuts each file into tokens (JLS 3.2), in their order. The first that has no cut stops it, as by `lex`.
pub fn lex_files<'a>(alloc: Global, files: &[InputFile<'a>]) -> Result<Vec<CutFile<'a>>, Stop>
    requires { All IsShort files.now }
    ensures { IsInTurn IsCutOf IsUncut files.now result }
{
    let mut cut = Vec::new(alloc);
    'each: for file in files {
        let tokens = match lex(alloc, file.number, file.bytes) {
            Ok(tokens) => tokens,
            Err(stop) => return Err(stop),
        };
        let Ok(()) = cut.push(CutFile {
            file: *file,
            tokens,
        }) else {
            return Err(Stop::NoMemory);
        };
    }
    Ok(cut)
}
