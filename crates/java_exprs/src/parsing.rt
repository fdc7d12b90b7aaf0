ghost use Rattle.std.specs.Prelude.{◌≡◌, ◌-◌, ◌<◌, ◌≤◌, ◌^◌, ℕ, List, [], drop, map, length, IfOk, IfErr};
ghost use Rattle.java_lexer.specs.Cut.{place_behind};
ghost use Rattle.java_syntax.specs.declared.names.Typ.{Typ as TypTree};
ghost use Rattle.java_syntax.specs.declared.symbols.Symbol.TheVariants as symbols;
ghost use Rattle.java_syntax.specs.ExpressionTrees.{ExprTree, expr_of};
ghost use Rattle.java_syntax.specs.AnnotationTrees.{AnnoTree, anno_of};
ghost use Rattle.java_grammar.specs.Reached.{lexemes_of};
ghost use Rattle.java_exprs.specs.FrontTrees.{IsExpressionFront, IsTypeFront, IsAnnotationsFront, IsFrontStop, no_annotation};

use crate::front_trees::{annotations_front, expression_front, type_front};
use java_lexer::{Source, end_place};
use java_syntax::{Anno, Expr, Token, Typ};
use rlc_base::Stop;
use std::alloc::Global;

/// The tokens from this number on.
fn tokens_from(tokens: &[Token], at: usize) -> &[Token]
    ensures { result.now ≡ drop at tokens.now }
{
    tokens.get(at..).unwrap_or(&[])
}

/// The expression (JLS 15) that stands at the token of this number, and the number of the token behind it. It may have 128
/// levels, less these.
///
/// # Errors
///
/// `Refused` with `Code::Syntax` where no expression ends: at the first token at which none goes on, or behind the last byte of the
/// file. `TooMuch` with `Code::TooDeep` where it has more levels.
pub fn parse_expr(
    alloc: Global,
    source: &Source,
    at: usize,
    level: u32,
) -> Result<(Expr, usize), Stop>
    requires { length source.now.bytes.now < 2 ^ 32 - 1 }
    ensures behind { IfOk result (λ found. at ≤ found.1) }
    ensures parsed { IfOk result (λ found. IsExpressionFront (128 - level) (lexemes_of source.now.bytes.now (drop at source.now.tokens.now)) (found.1 - at) (expr_of found.0)) }
    ensures only { IfOk result (λ found. (count : ℕ) (tree : ExprTree) → IsExpressionFront (128 - level) (lexemes_of source.now.bytes.now (drop at source.now.tokens.now)) count tree → (count ≡ found.1 - at) × (tree ≡ expr_of found.0)) }
    ensures stopped { IfErr result (λ stop. IsFrontStop symbols.Expression (128 - level) [] (lexemes_of source.now.bytes.now (drop at source.now.tokens.now)) (place_behind source.now.file source.now.bytes.now) stop) }
{
    let tokens = tokens_from(source.tokens, at);
    let end = end_place(source);
    match expression_front(alloc, source.bytes, tokens, end, level) {
        Ok((e, count)) => Ok((e, at + count)),
        Err(stop) => Err(stop),
    }
}

/// The type (JLS 4) that stands at the token of this number, and the number of the token behind it.
///
/// # Errors
///
/// `Refused` with `Code::Syntax` where no type ends: at the first token at which none goes on, or behind the last byte of the
/// file.
pub fn parse_type(alloc: Global, source: &Source, at: usize) -> Result<(Typ, usize), Stop>
    requires { length source.now.bytes.now < 2 ^ 32 - 1 }
    ensures behind { IfOk result (λ found. at ≤ found.1) }
    ensures parsed { IfOk result (λ found. IsTypeFront (lexemes_of source.now.bytes.now (drop at source.now.tokens.now)) (found.1 - at) found.0) }
    ensures only { IfOk result (λ found. (count : ℕ) (tree : TypTree) → IsTypeFront (lexemes_of source.now.bytes.now (drop at source.now.tokens.now)) count tree → (count ≡ found.1 - at) × (tree ≡ found.0)) }
    ensures stopped { IfErr result (λ stop. IsFrontStop symbols.Type 128 [] (lexemes_of source.now.bytes.now (drop at source.now.tokens.now)) (place_behind source.now.file source.now.bytes.now) stop) }
{
    let tokens = tokens_from(source.tokens, at);
    let end = end_place(source);
    match type_front(alloc, source.bytes, tokens, end) {
        Ok((typ, count)) => Ok((typ, at + count)),
        Err(stop) => Err(stop),
    }
}

/// The annotations (JLS 9.7) that stand at the token of this number, which may be none, and the number of the token behind
/// them. Each may have 128 levels, less these.
///
/// # Errors
///
/// `Refused` with `Code::Syntax` where an annotation doesn't end: at the first token at which none goes on, or behind the last byte of the
/// file. `TooMuch` with `Code::TooDeep` where one has more levels.
pub fn parse_annos(
    alloc: Global,
    source: &Source,
    at: usize,
    level: u32,
) -> Result<(Vec<Anno>, usize), Stop>
    requires { length source.now.bytes.now < 2 ^ 32 - 1 }
    ensures behind { IfOk result (λ found. at ≤ found.1) }
    ensures parsed { IfOk result (λ found. IsAnnotationsFront (128 - level) (lexemes_of source.now.bytes.now (drop at source.now.tokens.now)) (found.1 - at) (map anno_of found.0.items)) }
    ensures only { IfOk result (λ found. (count : ℕ) (tree : List AnnoTree) → IsAnnotationsFront (128 - level) (lexemes_of source.now.bytes.now (drop at source.now.tokens.now)) count tree → (count ≡ found.1 - at) × (tree ≡ map anno_of found.0.items)) }
    ensures stopped { IfErr result (λ stop. IsFrontStop symbols.Annotations (128 - level) no_annotation (lexemes_of source.now.bytes.now (drop at source.now.tokens.now)) (place_behind source.now.file source.now.bytes.now) stop) }
{
    let tokens = tokens_from(source.tokens, at);
    let end = end_place(source);
    match annotations_front(alloc, source.bytes, tokens, end, level) {
        Ok((all, count)) => Ok((all, at + count)),
        Err(stop) => Err(stop),
    }
}
