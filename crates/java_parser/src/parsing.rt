ghost use Rattle.std.specs.Prelude.{◌≡◌, ◌-◌, ◌<◌, ◌^◌, List, map, length, true, false, IfOk, IfErr};
ghost use Rattle.java_lexer.specs.Cut.{place_behind};
ghost use Rattle.java_syntax.specs.declared.symbols.Symbol.TheVariants as symbols;
ghost use Rattle.java_syntax.specs.DeclarationTrees.{UnitTree, unit_of};
ghost use Rattle.java_parser.specs.FileTrees.{IsUnitTree, IsStubTree, IsFileStop, HasNoUnit, HasNoStub, lexemes};

use crate::file_trees::{stub_trees, unit_tree};
use java_lexer::{Source, end_place};
use java_syntax::Unit;
use rlc_base::Stop;
use std::alloc::Global;

/// The tree of a Java source file (JLS 7.3).
///
/// # Errors
///
/// `Refused` with code 20 where no source file has these tokens: at the first token at which none goes on, or behind the last
/// byte. `TooMuch` with code 61 where one has, but a statement, expression, annotation or annotation value stands at level 128 or
/// more.
pub fn parse_unit(alloc: Global, source: &Source) -> Result<Unit, Stop>
    requires { length source.now.bytes.now < 2 ^ 32 - 1 }
    ensures tree { IfOk result (λ unit. IsUnitTree (lexemes source.now.bytes.now source.now.tokens.now) (unit_of unit)) }
    ensures only { IfOk result (λ unit. (other : UnitTree) → IsUnitTree (lexemes source.now.bytes.now source.now.tokens.now) other → other ≡ unit_of unit) }
    ensures stopped { IfErr result (λ stop. IsFileStop false symbols.CompilationUnit (lexemes source.now.bytes.now source.now.tokens.now) (place_behind source.now.file source.now.bytes.now) stop) }
    ensures no_unit { IfErr result (λ stop. HasNoUnit (lexemes source.now.bytes.now source.now.tokens.now) stop) }
{
    let end = end_place(source);
    unit_tree(alloc, source.bytes, source.tokens, end)
}

/// The sections of a stub file, each as a unit, in their order (Checker Framework manual, the chapter on annotating libraries).
///
/// # Errors
///
/// As those of `parse_unit`.
pub fn parse_stub(alloc: Global, source: &Source) -> Result<Vec<Unit>, Stop>
    requires { length source.now.bytes.now < 2 ^ 32 - 1 }
    ensures trees { IfOk result (λ units. IsStubTree (lexemes source.now.bytes.now source.now.tokens.now) (map unit_of units.items)) }
    ensures only { IfOk result (λ units. (others : List UnitTree) → IsStubTree (lexemes source.now.bytes.now source.now.tokens.now) others → others ≡ map unit_of units.items) }
    ensures stopped { IfErr result (λ stop. IsFileStop true symbols.StubFile (lexemes source.now.bytes.now source.now.tokens.now) (place_behind source.now.file source.now.bytes.now) stop) }
    ensures no_stub { IfErr result (λ stop. HasNoStub (lexemes source.now.bytes.now source.now.tokens.now) stop) }
{
    let end = end_place(source);
    stub_trees(alloc, source.bytes, source.tokens, end)
}
