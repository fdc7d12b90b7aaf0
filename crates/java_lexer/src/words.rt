ghost use Rattle.std.specs.Prelude.{◌≡◌, map, nat_eq};
ghost use Rattle.std.specs.List.{list_any, starts_with};
ghost use Rattle.std.specs.Str.{bytes_eq};
ghost use Rattle.java_lexer.specs.Words.{is_listed, texts_of, classes_of, meanings_of, reserved_word_rows, separator_rows, operator_rows, reserved_words, left_out_words, value_words, separators, operators, reserved_word_classes, separator_classes, operator_classes, reserved_word_meanings, operator_meanings, class_in, meaning_in, longest_listed};

use crate::meanings::Meaning;
use java_syntax::{InfixOperator, PrefixOperator, PrimitiveName, StepOperator, Word};

/// A listed text, its class in the grammar, and what it means beyond its class.
type Row = (&'static [u8], Word, Meaning);

/// The reserved words that the subset uses (JLS 3.9).
const RESERVED_WORDS: &[Row] = &[
    (b"abstract", Word::Abstract, Meaning::Plain),
    (
        b"boolean",
        Word::Primitive,
        Meaning::Primitive(PrimitiveName::Boolean),
    ),
    (b"break", Word::Break, Meaning::Plain),
    (
        b"byte",
        Word::Primitive,
        Meaning::Primitive(PrimitiveName::Byte),
    ),
    (b"catch", Word::Catch, Meaning::Plain),
    (
        b"char",
        Word::Primitive,
        Meaning::Primitive(PrimitiveName::Char),
    ),
    (b"class", Word::Class, Meaning::Plain),
    (b"continue", Word::Continue, Meaning::Plain),
    (b"do", Word::Do, Meaning::Plain),
    (b"else", Word::Else, Meaning::Plain),
    (b"extends", Word::Extends, Meaning::Plain),
    (b"final", Word::Final, Meaning::Plain),
    (b"finally", Word::Finally, Meaning::Plain),
    (b"for", Word::For, Meaning::Plain),
    (b"if", Word::If, Meaning::Plain),
    (b"implements", Word::Implements, Meaning::Plain),
    (b"import", Word::Import, Meaning::Plain),
    (b"instanceof", Word::Instanceof, Meaning::Plain),
    (
        b"int",
        Word::Primitive,
        Meaning::Primitive(PrimitiveName::Int),
    ),
    (b"interface", Word::Interface, Meaning::Plain),
    (
        b"long",
        Word::Primitive,
        Meaning::Primitive(PrimitiveName::Long),
    ),
    (b"new", Word::New, Meaning::Plain),
    (b"package", Word::Package, Meaning::Plain),
    (b"private", Word::Private, Meaning::Plain),
    (b"protected", Word::Protected, Meaning::Plain),
    (b"public", Word::Public, Meaning::Plain),
    (b"return", Word::Return, Meaning::Plain),
    (b"static", Word::Static, Meaning::Plain),
    (b"super", Word::Super, Meaning::Plain),
    (b"this", Word::This, Meaning::Plain),
    (b"throw", Word::Throw, Meaning::Plain),
    (b"throws", Word::Throws, Meaning::Plain),
    (b"try", Word::Try, Meaning::Plain),
    (b"void", Word::Void, Meaning::Plain),
    (b"while", Word::While, Meaning::Plain),
];

/// The reserved words that the subset leaves out (JLS 3.9).
const LEFT_OUT_WORDS: [&[u8]; 16] = [
    b"assert",
    b"case",
    b"const",
    b"default",
    b"double",
    b"enum",
    b"float",
    b"goto",
    b"native",
    b"short",
    b"strictfp",
    b"switch",
    b"synchronized",
    b"transient",
    b"volatile",
    b"_",
];

/// The literals that are words (JLS 3.10.3, 3.10.8).
const VALUE_WORDS: [&[u8]; 3] = [b"true", b"false", b"null"];

/// The separators (JLS 3.11).
const SEPARATORS: &[Row] = &[
    (b"(", Word::OpenParen, Meaning::Plain),
    (b")", Word::CloseParen, Meaning::Plain),
    (b"{", Word::OpenBrace, Meaning::Plain),
    (b"}", Word::CloseBrace, Meaning::Plain),
    (b"[", Word::OpenBracket, Meaning::Plain),
    (b"]", Word::CloseBracket, Meaning::Plain),
    (b";", Word::Semicolon, Meaning::Plain),
    (b",", Word::Comma, Meaning::Plain),
    (b".", Word::Dot, Meaning::Plain),
    (b"...", Word::Other, Meaning::Plain),
    (b"@", Word::At, Meaning::Plain),
    (b"::", Word::Other, Meaning::Plain),
];

/// The operators (JLS 3.12).
const OPERATORS: &[Row] = &[
    (b"=", Word::Assign, Meaning::Plain),
    (b"?", Word::Question, Meaning::Plain),
    (b":", Word::Colon, Meaning::Plain),
    (b"->", Word::Other, Meaning::Plain),
    (b"!", Word::Not, Meaning::Prefix(PrefixOperator::Not)),
    (b"~", Word::Not, Meaning::Prefix(PrefixOperator::Complement)),
    (b"++", Word::Step, Meaning::Step(StepOperator::Increment)),
    (b"--", Word::Step, Meaning::Step(StepOperator::Decrement)),
    (
        b"+",
        Word::Sign,
        Meaning::Sign(PrefixOperator::Plus, InfixOperator::Add),
    ),
    (
        b"-",
        Word::Sign,
        Meaning::Sign(PrefixOperator::Minus, InfixOperator::Subtract),
    ),
    (b"*", Word::Star, Meaning::Infix(InfixOperator::Multiply)),
    (b"|", Word::Bar, Meaning::Infix(InfixOperator::Or)),
    (b"/", Word::Tight, Meaning::Infix(InfixOperator::Divide)),
    (b"%", Word::Tight, Meaning::Infix(InfixOperator::Remainder)),
    (b"<<", Word::Tight, Meaning::Infix(InfixOperator::ShiftLeft)),
    (
        b">>",
        Word::Tight,
        Meaning::Infix(InfixOperator::ShiftRight),
    ),
    (
        b">>>",
        Word::Tight,
        Meaning::Infix(InfixOperator::ShiftRightUnsigned),
    ),
    (b"<", Word::Loose, Meaning::Infix(InfixOperator::Less)),
    (b">", Word::Loose, Meaning::Infix(InfixOperator::Greater)),
    (
        b"<=",
        Word::Loose,
        Meaning::Infix(InfixOperator::LessOrEqual),
    ),
    (
        b">=",
        Word::Loose,
        Meaning::Infix(InfixOperator::GreaterOrEqual),
    ),
    (b"==", Word::Loose, Meaning::Infix(InfixOperator::Equal)),
    (b"!=", Word::Loose, Meaning::Infix(InfixOperator::NotEqual)),
    (b"&", Word::Loose, Meaning::Infix(InfixOperator::And)),
    (b"^", Word::Loose, Meaning::Infix(InfixOperator::Xor)),
    (
        b"&&",
        Word::Loose,
        Meaning::Infix(InfixOperator::ConditionalAnd),
    ),
    (
        b"||",
        Word::Loose,
        Meaning::Infix(InfixOperator::ConditionalOr),
    ),
    (b"+=", Word::Compound, Meaning::Plain),
    (b"-=", Word::Compound, Meaning::Plain),
    (b"*=", Word::Compound, Meaning::Plain),
    (b"/=", Word::Compound, Meaning::Plain),
    (b"&=", Word::Compound, Meaning::Plain),
    (b"|=", Word::Compound, Meaning::Plain),
    (b"^=", Word::Compound, Meaning::Plain),
    (b"%=", Word::Compound, Meaning::Plain),
    (b"<<=", Word::Compound, Meaning::Plain),
    (b">>=", Word::Compound, Meaning::Plain),
    (b">>>=", Word::Compound, Meaning::Plain),
];

/// The rows of the reserved words that the subset uses.
fn reserved_rows() -> &'static [Row]
    ensures { map (λ row. (row.0.now, row.1, row.2)) result.now ≡ reserved_word_rows }
{
    RESERVED_WORDS
}

/// The rows of the separators.
fn separator_rows() -> &'static [Row]
    ensures { map (λ row. (row.0.now, row.1, row.2)) result.now ≡ separator_rows }
{
    SEPARATORS
}

/// The rows of the operators.
fn operator_rows() -> &'static [Row]
    ensures { map (λ row. (row.0.now, row.1, row.2)) result.now ≡ operator_rows }
{
    OPERATORS
}

/// Whether the word is one of those listed.
fn is_listed(words: &[&[u8]], word: &[u8]) -> bool
    ensures { result ≡ list_any (λ listed. bytes_eq listed.now word.now) words.now }
{
    for listed in words {
        if *listed == word {
            return true;
        }
    }
    false
}

/// Whether the word stands in a row of the table.
fn is_in(table: &[Row], word: &[u8]) -> bool
    ensures { result ≡ is_listed (texts_of (map (λ row. (row.0.now, row.1, row.2)) table.now)) word.now }
{
    for row in table {
        if row.0 == word {
            return true;
        }
    }
    false
}

/// Whether the text begins with the word. The first bytes alone tell nearly all words of a table apart.
fn begins_with(text: &[u8], word: &[u8]) -> bool
    ensures { result ≡ starts_with nat_eq text.now word.now }
{
    match (text.first(), word.first()) {
        (Some(given), Some(wanted)) if given != wanted => false,
        _ => text.starts_with(word),
    }
}

/// The length of the longest word of the table that the text begins with, and 0 where none does.
fn longest_listed(table: &[Row], text: &[u8]) -> usize
    ensures { result ≡ longest_listed (texts_of (map (λ row. (row.0.now, row.1, row.2)) table.now)) text.now }
{
    let mut longest = 0;
    for row in table {
        if begins_with(text, row.0) {
            longest = longest.max(row.0.len());
        }
    }
    longest
}

/// The class that stands beside the word in the table, and `Word::Other` where the word stands in no row.
fn class_in(table: &[Row], word: &[u8]) -> Word
    ensures { result ≡ class_in (classes_of (map (λ row. (row.0.now, row.1, row.2)) table.now)) word.now }
{
    for row in table {
        if row.0 == word {
            return row.1;
        }
    }
    Word::Other
}

/// What the word means beside its class by the table, and `Meaning::Plain` where the word stands in no row.
fn meaning_in(table: &[Row], word: &[u8]) -> Meaning
    ensures { result ≡ meaning_in (meanings_of (map (λ row. (row.0.now, row.1, row.2)) table.now)) word.now }
{
    for row in table {
        if row.0 == word {
            return row.2;
        }
    }
    Meaning::Plain
}

/// Whether it is a reserved word that the subset uses.
pub fn is_reserved(word: &[u8]) -> bool
    ensures { result ≡ is_listed reserved_words word.now }
{
    is_in(reserved_rows(), word)
}

/// Whether it is a reserved word that the subset leaves out.
pub fn is_left_out(word: &[u8]) -> bool
    ensures { result ≡ is_listed left_out_words word.now }
{
    let words: [&[u8]; 16] = LEFT_OUT_WORDS;
    is_listed(words.as_slice(), word)
}

/// Whether it is `true`, `false` or `null`.
pub fn is_value(word: &[u8]) -> bool
    ensures { result ≡ is_listed value_words word.now }
{
    let words: [&[u8]; 3] = VALUE_WORDS;
    is_listed(words.as_slice(), word)
}

/// The length of the longest separator that the text begins with, and 0 where none does.
pub fn separator_len(text: &[u8]) -> usize
    ensures { result ≡ longest_listed separators text.now }
{
    longest_listed(separator_rows(), text)
}

/// The length of the longest operator that the text begins with, and 0 where none does.
pub fn operator_len(text: &[u8]) -> usize
    ensures { result ≡ longest_listed operators text.now }
{
    longest_listed(operator_rows(), text)
}

/// The grammar's class of a reserved word.
pub fn reserved_word_class(word: &[u8]) -> Word
    ensures { result ≡ class_in reserved_word_classes word.now }
{
    class_in(reserved_rows(), word)
}

/// The grammar's class of a separator.
pub fn separator_class(word: &[u8]) -> Word
    ensures { result ≡ class_in separator_classes word.now }
{
    class_in(separator_rows(), word)
}

/// The grammar's class of an operator.
pub fn operator_class(word: &[u8]) -> Word
    ensures { result ≡ class_in operator_classes word.now }
{
    class_in(operator_rows(), word)
}

/// What a reserved word means beyond its class.
pub fn reserved_word_meaning(word: &[u8]) -> Meaning
    ensures { result ≡ meaning_in reserved_word_meanings word.now }
{
    meaning_in(reserved_rows(), word)
}

/// What an operator means beyond its class.
pub fn operator_meaning(word: &[u8]) -> Meaning
    ensures { result ≡ meaning_in operator_meanings word.now }
{
    meaning_in(operator_rows(), word)
}
