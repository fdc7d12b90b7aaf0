ghost use Rattle.std.specs.Prelude.{◌≡◌, ◌-◌, ℕ, List, [], ◌∷◌, None, map, slice_index_or, false, IfOk, IfErr};
ghost use Rattle.java_syntax.specs.Derives.{Step};
ghost use Rattle.java_syntax.specs.declared.names.Typ.{Typ as TypTree};
ghost use Rattle.java_syntax.specs.declared.symbols.Symbol.TheVariants as symbols;
ghost use Rattle.java_syntax.specs.ExpressionTrees.{ExprTree, expr_of};
ghost use Rattle.java_syntax.specs.AnnotationTrees.{AnnoTree, anno_of};
ghost use Rattle.java_grammar.specs.Reached.{lexemes_of};
ghost use Rattle.java_grammar.specs.Fronts.{IsClosedFront};
ghost use Rattle.java_values.specs.Values.{ValueTree, values_of};
ghost use Rattle.java_values.specs.Outcomes.{IsNoMisfit};
ghost use Rattle.java_exprs.specs.Evaluation.{evaluate};
ghost use Rattle.java_exprs.specs.FrontTrees.{IsFrontValues, IsExpressionFront, IsTypeFront, IsAnnotationsFront, IsFrontStop, no_annotation};

use crate::{evaluate, no_annotations};
use java_grammar::{DeriveFail, derive_front};
use java_syntax::{Anno, Expr, Symbol, Token, Typ};
use java_values::{BuildFail, Value, pop_annotations, pop_expression, pop_typ};
use rlc_base::{Code, Pos, Refusal, Stop};
use std::alloc::Global;

/// The place of the token of this number, and the end where there is none.
fn place_at(tokens: &[Token], at: usize, end: Pos) -> Pos
    ensures { (bytes : List ℕ) → result ≡ slice_index_or (map (λ t. t.pos) (lexemes_of bytes tokens.now)) at end }
{
    match tokens.get(at) {
        Some(token) => token.pos,
        None => end,
    }
}

/// What the derivation of the closed front leaves on this stack, and how many tokens it has.
fn front_values(
    alloc: Global,
    symbol: Symbol,
    start: Vec<Value>,
    limit: u32,
    bytes: &[u8],
    tokens: &[Token],
    end: Pos,
) -> Result<(Vec<Value>, usize), Stop>
    requires { (count : ℕ) (steps : List Step) → IsClosedFront false symbol (lexemes_of bytes.now tokens.now) count steps → IsNoMisfit (evaluate limit steps None (values_of start.items)) }
    ensures front { IfOk result (λ found. IsFrontValues symbol limit (values_of start.items) (lexemes_of bytes.now tokens.now) found.1 (values_of found.0.items)) }
    ensures only { IfOk result (λ found. (count : ℕ) (values : List ValueTree) → IsFrontValues symbol limit (values_of start.items) (lexemes_of bytes.now tokens.now) count values → (count ≡ found.1) × (values ≡ values_of found.0.items)) }
    ensures stopped { IfErr result (λ stop. IsFrontStop symbol limit (values_of start.items) (lexemes_of bytes.now tokens.now) end stop) }
{
    match derive_front(alloc, symbol, false, bytes, tokens) {
        Err(DeriveFail::NoMemory) => Err(Stop::NoMemory),
        Err(DeriveFail::WrongAt(at)) => {
            let pos = place_at(tokens, at, end);
            let code = Code::Syntax;
            Err(Refusal { code, pos }.stop())
        }
        Ok((events, count)) => match evaluate(alloc, limit, bytes, events.as_slice(), start) {
            Ok(stack) => Ok((stack, count)),
            Err(BuildFail::NoMemory) => Err(Stop::NoMemory),
            Err(BuildFail::TooDeep(pos)) => {
                let code = Code::TooDeep;
                Err(Refusal { code, pos }.stop())
            }
        },
    }
}

/// The expression (JLS 15) that the tokens begin with, and how many tokens it has. It may have 128 levels, less these.
///
/// # Errors
///
/// `Refused` with `Code::Syntax` where no expression ends: at the first token at which none goes on, or at the end. `TooMuch` with
/// `Code::TooDeep` where it has more levels.
pub(crate) fn expression_front(
    alloc: Global,
    bytes: &[u8],
    tokens: &[Token],
    end: Pos,
    level: u32,
) -> Result<(Expr, usize), Stop>
    ensures front { IfOk result (λ found. IsExpressionFront (128 - level) (lexemes_of bytes.now tokens.now) found.1 (expr_of found.0)) }
    ensures only { IfOk result (λ found. (count : ℕ) (tree : ExprTree) → IsExpressionFront (128 - level) (lexemes_of bytes.now tokens.now) count tree → (count ≡ found.1) × (tree ≡ expr_of found.0)) }
    ensures stopped { IfErr result (λ stop. IsFrontStop symbols.Expression (128 - level) [] (lexemes_of bytes.now tokens.now) end stop) }
{
    let limit = 128u32.saturating_sub(level);
    match front_values(
        alloc,
        Symbol::Expression,
        Vec::new(alloc),
        limit,
        bytes,
        tokens,
        end,
    ) {
        Ok((values, count)) => {
            let mut stack = values;
            let e = pop_expression(&mut stack);
            Ok((e.tree, count))
        }
        Err(stop) => Err(stop),
    }
}

/// The type (JLS 4) that the tokens begin with, and how many tokens it has.
///
/// # Errors
///
/// `Refused` with `Code::Syntax` where no type ends: at the first token at which none goes on, or at the end.
pub(crate) fn type_front(
    alloc: Global,
    bytes: &[u8],
    tokens: &[Token],
    end: Pos,
) -> Result<(Typ, usize), Stop>
    ensures front { IfOk result (λ found. IsTypeFront (lexemes_of bytes.now tokens.now) found.1 found.0) }
    ensures only { IfOk result (λ found. (count : ℕ) (tree : TypTree) → IsTypeFront (lexemes_of bytes.now tokens.now) count tree → (count ≡ found.1) × (tree ≡ found.0)) }
    ensures stopped { IfErr result (λ stop. IsFrontStop symbols.Type 128 [] (lexemes_of bytes.now tokens.now) end stop) }
{
    match front_values(
        alloc,
        Symbol::Type,
        Vec::new(alloc),
        128,
        bytes,
        tokens,
        end,
    ) {
        Ok((values, count)) => {
            let mut stack = values;
            let typ = pop_typ(&mut stack);
            Ok((typ, count))
        }
        Err(stop) => Err(stop),
    }
}

/// The annotations (JLS 9.7) that the tokens begin with, and how many tokens they have. Each may have 128 levels, less these.
///
/// # Errors
///
/// `Refused` with `Code::Syntax` where an annotation doesn't end: at the first token at which none goes on, or at the end. `TooMuch`
/// with `Code::TooDeep` where one has more levels.
pub(crate) fn annotations_front(
    alloc: Global,
    bytes: &[u8],
    tokens: &[Token],
    end: Pos,
    level: u32,
) -> Result<(Vec<Anno>, usize), Stop>
    ensures front { IfOk result (λ found. IsAnnotationsFront (128 - level) (lexemes_of bytes.now tokens.now) found.1 (map anno_of found.0.items)) }
    ensures only { IfOk result (λ found. (count : ℕ) (tree : List AnnoTree) → IsAnnotationsFront (128 - level) (lexemes_of bytes.now tokens.now) count tree → (count ≡ found.1) × (tree ≡ map anno_of found.0.items)) }
    ensures stopped { IfErr result (λ stop. IsFrontStop symbols.Annotations (128 - level) no_annotation (lexemes_of bytes.now tokens.now) end stop) }
{
    let limit = 128u32.saturating_sub(level);
    let start = no_annotations(alloc)?;
    match front_values(alloc, Symbol::Annotations, start, limit, bytes, tokens, end) {
        Ok((values, count)) => {
            let mut stack = values;
            let all = pop_annotations(&mut stack);
            Ok((all.tree, count))
        }
        Err(stop) => Err(stop),
    }
}
