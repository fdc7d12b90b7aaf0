//! The tree of a file is determined by its tokens. Each law is the contract of a function that does nothing.

ghost use Rattle.std.specs.Prelude.{◌≡◌, Bool, List, true, false};
ghost use Rattle.rlc_base.specs.declared.faults.Stop.TheVariants as stops;
ghost use Rattle.java_syntax.specs.Derives.{Lexeme};
ghost use Rattle.java_syntax.specs.DeclarationTrees.{UnitTree};
ghost use Rattle.java_syntax.specs.declared.symbols.Symbol.TheVariants as symbols;
ghost use Rattle.program_front.specs.FileTrees.{IsFileStop, IsStubTree, IsUnitTree};

use java_syntax::Symbol;
use rlc_base::{Pos, Refusal, Stop};

/// The tokens of a source file have one tree.
pub fn unit_is_one()
    ensures { (tokens : List Lexeme) (tree other : UnitTree) → IsUnitTree tokens tree → IsUnitTree tokens other → tree ≡ other }
{}

/// The tokens of a stub file have one list of sections.
pub fn sections_are_one()
    ensures { (tokens : List Lexeme) (trees others : List UnitTree) → IsStubTree tokens trees → IsStubTree tokens others → trees ≡ others }
{}

/// The tokens of a source file have no refusal.
pub fn unit_has_no_stop()
    ensures { (tokens : List Lexeme) (tree : UnitTree) (end : Pos) (stop : Stop) → IsUnitTree tokens tree → IsFileStop false symbols.CompilationUnit tokens end stop → stop ≡ stops.NoMemory }
{}

/// The tokens of a stub file have no refusal.
pub fn sections_have_no_stop()
    ensures { (tokens : List Lexeme) (trees : List UnitTree) (end : Pos) (stop : Stop) → IsStubTree tokens trees → IsFileStop true symbols.StubFile tokens end stop → stop ≡ stops.NoMemory }
{}

/// Tokens that are wrong are wrong at one place.
pub fn wrong_stop_is_one()
    ensures { (stub : Bool) (symbol : Symbol) (tokens : List Lexeme) (end : Pos) (r q : Refusal) → IsFileStop stub symbol tokens end (stops.Refused r) → IsFileStop stub symbol tokens end (stops.Refused q) → r ≡ q }
{}

/// Tokens that are wrong have no tree that is too deep.
pub fn wrong_is_not_deep()
    ensures { (stub : Bool) (symbol : Symbol) (tokens : List Lexeme) (end : Pos) (r q : Refusal) → IsFileStop stub symbol tokens end (stops.Refused r) → IsFileStop stub symbol tokens end (stops.TooMuch q) → ⊥ }
{}

/// Tokens whose tree is too deep have one code of refusal. Its place is in no clause.
pub fn deep_stop_is_one()
    ensures { (stub : Bool) (symbol : Symbol) (tokens : List Lexeme) (end : Pos) (r q : Refusal) → IsFileStop stub symbol tokens end (stops.TooMuch r) → IsFileStop stub symbol tokens end (stops.TooMuch q) → r.code ≡ q.code }
{}
