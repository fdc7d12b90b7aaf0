ghost use Rattle.std.specs.Prelude.{◌≡◌, ℕ, List, map, IfOk, IfErr};
ghost use Rattle.java_syntax.specs.Derives.{Step, step_of};
ghost use Rattle.java_grammar.specs.Reached.{lexemes_of};
ghost use Rattle.java_grammar.specs.Fronts.{IsClosedFront, HasNoFront};

use crate::machine::{DeriveFail, derive};
use java_syntax::{Event, Symbol, Token};
use std::alloc::Global;

/// The derivation of the closed front, and how many tokens it has: the first tokens that are a sentence of the symbol, where no
/// sentence of it begins with them and the next token. So the tokens of an expression, as `Symbol::Expression`, are told from
/// what stands behind it.
///
/// # Errors
///
/// `WrongAt` says that there is no closed front, and names the first token at which no sentence goes on.
pub fn derive_front(
    alloc: Global,
    start: Symbol,
    is_stub: bool,
    bytes: &[u8],
    tokens: &[Token],
) -> Result<(Vec<Event>, usize), DeriveFail>
    ensures front { IfOk result (λ found. IsClosedFront is_stub start (lexemes_of bytes.now tokens.now) found.1 (map (step_of bytes.now) found.0.items)) }
    ensures one_front { IfOk result (λ found. (count : ℕ) (steps : List Step) → IsClosedFront is_stub start (lexemes_of bytes.now tokens.now) count steps → (count ≡ found.1) × (steps ≡ map (step_of bytes.now) found.0.items)) }
    ensures refused { IfErr result (λ fail. HasNoFront is_stub start (lexemes_of bytes.now tokens.now) fail) }
{
    match derive(alloc, start, is_stub, bytes, tokens) {
        Ok(events) => Ok((events, tokens.len())),
        Err(DeriveFail::NoMemory) => Err(DeriveFail::NoMemory),
        Err(DeriveFail::WrongAt(at)) => match derive(alloc, start, is_stub, bytes, &tokens[..at]) {
            Ok(events) => Ok((events, at)),
            Err(DeriveFail::NoMemory) => Err(DeriveFail::NoMemory),
            Err(DeriveFail::WrongAt(_)) => Err(DeriveFail::WrongAt(at)),
        },
    }
}
