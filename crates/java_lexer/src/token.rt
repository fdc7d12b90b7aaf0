/// What kind of token a piece of source text is (JLS 3.5). The literals `true`, `false` and `null` are literals here.
#[derive(Clone, Copy)]
pub enum TokenKind {
    /// An identifier (JLS 3.8).
    Ident,
    /// A reserved word (JLS 3.9).
    Reserved,
    /// An integer, a character, a string, `true`, `false` or `null` (JLS 3.10).
    Literal,
    /// A separator (JLS 3.11).
    Separator,
    /// An operator (JLS 3.12).
    Operator,
}
