ghost use Rattle.std.specs.Prelude.{◌≡◌, ℕ, Bool, true, false, List, [], None, map, slice_index_or, IfOk, IfErr};
ghost use Rattle.java_syntax.specs.Derives.{Step};
ghost use Rattle.java_syntax.specs.DeclarationTrees.{UnitTree, unit_of};
ghost use Rattle.java_syntax.specs.declared.symbols.Symbol.TheVariants as symbols;
ghost use Rattle.java_grammar.specs.Reached.{lexemes_of};
ghost use Rattle.java_grammar.specs.Refusal.{IsDerivation};
ghost use Rattle.java_values.specs.Values.{ValueTree, values_of};
ghost use Rattle.java_values.specs.Outcomes.{IsNoMisfit};
ghost use Rattle.java_exprs.specs.Evaluation.{evaluate};
ghost use Rattle.java_parser.specs.FileTrees.{IsFileValues, IsUnitTree, IsStubTree, IsFileStop};

use java_exprs::evaluate;
use java_grammar::{DeriveFail, derive};
use java_syntax::{Symbol, Token, Unit};
use java_values::{BuildFail, Value, pop_unit, pop_units};
use rlc_base::{Code, Pos, Refusal, Stop};
use std::alloc::Global;

/// How many levels a tree may have.
const LEVELS: u32 = 128;

/// The place of the token of this number, and the end where there is none.
fn place_at(tokens: &[Token], at: usize, end: Pos) -> Pos
    ensures { (bytes : List ℕ) → result ≡ slice_index_or (map (λ t. t.pos) (lexemes_of bytes tokens.now)) at end }
{
    match tokens.get(at) {
        Some(token) => token.pos,
        None => end,
    }
}

/// What the derivation of the tokens leaves. `end` is the place behind the last byte.
///
/// # Errors
///
/// `Refused` with code 20 where there is no derivation: at the first token at which no sentence goes on, or at the end. `TooMuch`
/// with code 61 where a tree would have more than 128 levels.
fn file_values(
    alloc: Global,
    is_stub: bool,
    symbol: Symbol,
    bytes: &[u8],
    tokens: &[Token],
    end: Pos,
) -> Result<Vec<Value>, Stop>
    requires { (steps : List Step) → IsDerivation is_stub symbol (lexemes_of bytes.now tokens.now) steps → IsNoMisfit (evaluate 128 steps None []) }
    ensures tree { IfOk result (λ values. IsFileValues is_stub symbol (lexemes_of bytes.now tokens.now) (values_of values.items)) }
    ensures only { IfOk result (λ values. (other : List ValueTree) → IsFileValues is_stub symbol (lexemes_of bytes.now tokens.now) other → other ≡ values_of values.items) }
    ensures stopped { IfErr result (λ stop. IsFileStop is_stub symbol (lexemes_of bytes.now tokens.now) end stop) }
{
    match derive(alloc, symbol, is_stub, bytes, tokens) {
        Err(DeriveFail::NoMemory) => Err(Stop::NoMemory),
        Err(DeriveFail::WrongAt(at)) => {
            let pos = place_at(tokens, at, end);
            let code = Code::Syntax;
            Err(Refusal { code, pos }.stop())
        }
        Ok(events) => match evaluate(alloc, LEVELS, bytes, events.as_slice(), Vec::new(alloc)) {
            Ok(stack) => Ok(stack),
            Err(BuildFail::NoMemory) => Err(Stop::NoMemory),
            Err(BuildFail::TooDeep(pos)) => {
                let code = Code::TooDeep;
                Err(Refusal { code, pos }.stop())
            }
        },
    }
}

/// The source file (JLS 7.3) with these bytes and tokens. `end` is the place behind the last byte.
///
/// # Errors
///
/// `Refused` with code 20 where no source file has these tokens: at the first token at which none goes on, or at the end.
/// `TooMuch` with code 61 where a tree would have more than 128 levels.
pub(crate) fn unit_tree(
    alloc: Global,
    bytes: &[u8],
    tokens: &[Token],
    end: Pos,
) -> Result<Unit, Stop>
    ensures tree { IfOk result (λ unit. IsUnitTree (lexemes_of bytes.now tokens.now) (unit_of unit)) }
    ensures only { IfOk result (λ unit. (other : UnitTree) → IsUnitTree (lexemes_of bytes.now tokens.now) other → other ≡ unit_of unit) }
    ensures stopped { IfErr result (λ stop. IsFileStop false symbols.CompilationUnit (lexemes_of bytes.now tokens.now) end stop) }
{
    match file_values(alloc, false, Symbol::CompilationUnit, bytes, tokens, end) {
        Ok(values) => {
            let mut stack = values;
            Ok(pop_unit(&mut stack))
        }
        Err(stop) => Err(stop),
    }
}

/// The sections of the stub file with these bytes and tokens, in their order. `end` is the place behind the last byte.
///
/// # Errors
///
/// `Refused` with code 20 where no stub file has these tokens: at the first token at which none goes on, or at the end.
/// `TooMuch` with code 61 where a tree would have more than 128 levels.
pub(crate) fn stub_trees(
    alloc: Global,
    bytes: &[u8],
    tokens: &[Token],
    end: Pos,
) -> Result<Vec<Unit>, Stop>
    ensures trees { IfOk result (λ units. IsStubTree (lexemes_of bytes.now tokens.now) (map unit_of units.items)) }
    ensures only { IfOk result (λ units. (others : List UnitTree) → IsStubTree (lexemes_of bytes.now tokens.now) others → others ≡ map unit_of units.items) }
    ensures stopped { IfErr result (λ stop. IsFileStop true symbols.StubFile (lexemes_of bytes.now tokens.now) end stop) }
{
    match file_values(alloc, true, Symbol::StubFile, bytes, tokens, end) {
        Ok(values) => {
            let mut stack = values;
            Ok(pop_units(&mut stack))
        }
        Err(stop) => Err(stop),
    }
}
