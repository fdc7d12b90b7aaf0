/// The classes of tokens that the grammar tells apart (JLS 3.8 to 3.12).
#[derive(Copy, Clone, PartialEq, Eq)]
pub enum Word {
    /// `package`.
    Package,
    /// `;`.
    Semicolon,
    /// `import`.
    Import,
    /// An identifier.
    Ident,
    /// `.`.
    Dot,
    /// `*`, between operands or at the end of an import.
    Star,
    /// `,`.
    Comma,
    /// `class`.
    Class,
    /// `{`.
    OpenBrace,
    /// `}`.
    CloseBrace,
    /// `interface`.
    Interface,
    /// `extends`.
    Extends,
    /// `implements`.
    Implements,
    /// `public`.
    Public,
    /// `protected`.
    Protected,
    /// `private`.
    Private,
    /// `static`.
    Static,
    /// `final`.
    Final,
    /// `abstract`.
    Abstract,
    /// `void`.
    Void,
    /// `boolean`, `byte`, `char`, `int` or `long`.
    Primitive,
    /// `[`.
    OpenBracket,
    /// `]`.
    CloseBracket,
    /// `super`.
    Super,
    /// `throws`.
    Throws,
    /// `(`.
    OpenParen,
    /// `)`.
    CloseParen,
    /// `this`.
    This,
    /// `=`.
    Assign,
    /// `@`.
    At,
    /// `if`.
    If,
    /// `while`.
    While,
    /// `do`.
    Do,
    /// `for`.
    For,
    /// `try`.
    Try,
    /// `return`.
    Return,
    /// `throw`.
    Throw,
    /// `break`.
    Break,
    /// `continue`.
    Continue,
    /// `else`.
    Else,
    /// `finally`.
    Finally,
    /// `catch`.
    Catch,
    /// `|`, between operands or a catch clause's types.
    Bar,
    /// `++` or `--`.
    Step,
    /// An operator that ends in `=` and is no comparison, but `=` itself.
    Compound,
    /// `?`.
    Question,
    /// `:`.
    Colon,
    /// `+` or `-`.
    Sign,
    /// `/`, `%`, `<<`, `>>` or `>>>`: with `*`, `+` and `-` the operators that bind tighter than a comparison.
    Tight,
    /// `<`, `>`, `<=`, `>=`, `==`, `!=`, `&`, `^`, `&&` or `||`: a comparison, or an operator that binds looser; of these `|` stands apart.
    Loose,
    /// `instanceof`.
    Instanceof,
    /// `!` or `~`.
    Not,
    /// An integer, character or string literal, `true`, `false` or `null`.
    Literal,
    /// `new`.
    New,
    /// `...`, `::` or `->`, which no production takes.
    Other,
}

/// What a word of a production changes of what later conditions look at.
#[derive(Copy, Clone)]
pub enum Effect {
    /// Nothing that could be assigned or that stands as a statement ends here.
    Passes,
    /// A name, a field access or an index ends here: what stands left of an assignment (JLS 15.26).
    Assigns,
    /// A call or a `new` with arguments ends here: what may stand as a statement (JLS 14.8).
    Calls,
    /// The parentheses round a name end here: these may be a cast's (JLS 15.16).
    ClosesName,
    /// The parentheses round an array type end here: these are a cast's.
    ClosesArray,
    /// The word is one of the declaration's modifiers.
    Adds,
    /// The identifier is the class's.
    NamesClass,
    /// The identifier may be a constructor's.
    NamesMember,
}
