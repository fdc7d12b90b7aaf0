ghost use Rattle.std.specs.Prelude.{◌≡◌};
ghost use Rattle.std.specs.Option.{option_map};
ghost use Rattle.java_lexer.specs.TokenClasses.{class_of};

use crate::token::TokenKind;
use crate::{operator_class, reserved_word_class, separator_class};
use java_syntax::Word;

/// The grammar's class of a token of this kind and text. `Word::Other`, which no production takes, is that of `...`, `::` and `->`.
pub fn word_of(kind: TokenKind, text: &[u8]) -> Word
    ensures { result ≡ class_of kind text.now }
{
    match kind {
        TokenKind::Ident => Word::Ident,
        TokenKind::Literal => Word::Literal,
        TokenKind::Reserved => reserved_word_class(text),
        TokenKind::Separator => separator_class(text),
        TokenKind::Operator => operator_class(text),
    }
}

/// The grammar's class of a piece of source text, which white space and comments, without a kind, don't have.
pub fn piece_class(kind: Option<TokenKind>, text: &[u8]) -> Option<Word>
    ensures { result ≡ option_map (λ k. class_of k text.now) kind }
{
    match kind {
        Some(kind) => Some(word_of(kind, text)),
        None => None,
    }
}
