//! Reading a stub file.

ghost use Rattle.std.specs.Prelude.{◌≡◌, ◌-◌, ◌<◌, ◌^◌, List, map, length, IfOk, IfErr};
ghost use Rattle.java_syntax.specs.DeclarationTrees.{UnitTree, unit_of};
ghost use Rattle.stub_files.specs.StubFiles.{IsStubOf, IsStubStop};

use java_lexer::{Source, lex};
use java_parser::parse_stub;
use java_syntax::Unit;
use rlc_base::Stop;
use std::alloc::Global;

/// The sections of a stub file, each as a unit, in their order (Checker Framework manual, the chapter on annotating
/// libraries). `file` is the number of the file, which each place keeps.
///
/// # Errors
///
/// `Refused` as by `lex` where the bytes have no cut into tokens, and as by `parse_stub` where the tokens are those of no stub
/// file; `TooMuch` as by `parse_stub` where a part of it is too deep. Memory may run out.
pub fn read_stub(alloc: Global, file: u32, bytes: &[u8]) -> Result<Vec<Unit>, Stop>
    requires { length bytes.now < 2 ^ 32 - 1 }
    ensures sections { IfOk result (λ units. IsStubOf file bytes.now (map unit_of units.items)) }
    ensures only { IfOk result (λ units. (others : List UnitTree) → IsStubOf file bytes.now others → others ≡ map unit_of units.items) }
    ensures stopped { IfErr result (IsStubStop file bytes.now) }
{
    let tokens = lex(alloc, file, bytes)?;
    let source = Source {
        file,
        bytes,
        tokens: tokens.as_slice(),
    };
    parse_stub(alloc, &source)
}
