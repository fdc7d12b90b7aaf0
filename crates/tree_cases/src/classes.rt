// The names of the classes of tokens.

use java_syntax::Word;

static NAMES: [(Word, &str); 55] = [
    (Word::Package, "package"),
    (Word::Semicolon, "semicolon"),
    (Word::Import, "import"),
    (Word::Ident, "identifier"),
    (Word::Dot, "dot"),
    (Word::Star, "star"),
    (Word::Comma, "comma"),
    (Word::Class, "class"),
    (Word::OpenBrace, "open brace"),
    (Word::CloseBrace, "close brace"),
    (Word::Interface, "interface"),
    (Word::Extends, "extends"),
    (Word::Implements, "implements"),
    (Word::Public, "public"),
    (Word::Protected, "protected"),
    (Word::Private, "private"),
    (Word::Static, "static"),
    (Word::Final, "final"),
    (Word::Abstract, "abstract"),
    (Word::Void, "void"),
    (Word::Primitive, "primitive"),
    (Word::OpenBracket, "open bracket"),
    (Word::CloseBracket, "close bracket"),
    (Word::Super, "super"),
    (Word::Throws, "throws"),
    (Word::OpenParen, "open paren"),
    (Word::CloseParen, "close paren"),
    (Word::This, "this"),
    (Word::Assign, "assign"),
    (Word::At, "at"),
    (Word::If, "if"),
    (Word::While, "while"),
    (Word::Do, "do"),
    (Word::For, "for"),
    (Word::Try, "try"),
    (Word::Return, "return"),
    (Word::Throw, "throw"),
    (Word::Break, "break"),
    (Word::Continue, "continue"),
    (Word::Else, "else"),
    (Word::Finally, "finally"),
    (Word::Catch, "catch"),
    (Word::Bar, "bar"),
    (Word::Step, "step"),
    (Word::Compound, "compound"),
    (Word::Question, "question"),
    (Word::Colon, "colon"),
    (Word::Sign, "sign"),
    (Word::Tight, "tight"),
    (Word::Loose, "loose"),
    (Word::Instanceof, "instanceof"),
    (Word::Not, "not"),
    (Word::Literal, "literal"),
    (Word::New, "new"),
    (Word::Other, "other"),
];

/// The name of a class.
pub fn class_word(word: Word) -> &'static str {
    for (class, name) in &NAMES {
        if *class == word {
            return name;
        }
    }
    "?"
}
