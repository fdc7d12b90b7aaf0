// What the texts of a section are, as its head says.

/// What a text is read as.
#[derive(Clone, Copy)]
pub enum Kind {
    /// Tokens, which are written with a blank between them.
    Tokens,
    /// Tokens, of which the classes are written.
    ClassesOfTokens,
    Expression,
    Type,
    Annotations,
    /// The statements of a method's body.
    Statements,
    /// The members of a class or an interface.
    Members,
    File,
    StubFile,
    /// A file, of which no tree is written but only that it is taken.
    FileTaken,
}

/// The texts of a section.
#[derive(Clone, Copy)]
pub struct Texts<'a> {
    pub kind: Kind,
    /// The level at which an expression or annotations stand.
    pub level: u32,
    pub with_places: bool,
    /// The line that stands in the file in front of a text, if there is one, and what stands behind it.
    pub front: &'a str,
    pub back: &'static str,
}

fn kind_of(word: &str) -> Option<Kind> {
    match word {
        "tokens" => Some(Kind::Tokens),
        "classes of tokens" => Some(Kind::ClassesOfTokens),
        "expressions" => Some(Kind::Expression),
        "types" => Some(Kind::Type),
        "annotations" => Some(Kind::Annotations),
        "statements" => Some(Kind::Statements),
        "files" => Some(Kind::File),
        "stub files" => Some(Kind::StubFile),
        "files taken" => Some(Kind::FileTaken),
        _ => None,
    }
}

// What stands around a text: a line in front of it, and what stands behind it.
fn surroundings(kind: Kind, declared: &str) -> (&str, &'static str) {
    match kind {
        Kind::Members => (declared, "\n}"),
        Kind::Statements => ("class A { void f() {", "\n} }"),
        _ => ("", ""),
    }
}

// A head without ` at level N` at its end, and N.
fn levelled(head: &str) -> Option<(&str, u32)> {
    match head.split_once(" at level ") {
        None => Some((head, 0)),
        Some((front, number)) => match number.parse::<u32>() {
            Ok(level) => Some((front, level)),
            Err(_) => None,
        },
    }
}

/// The texts of a section with this head, if it is one.
pub fn texts_of(head: &str) -> Option<Texts<'_>> {
    let (head, with_places) = match head.strip_suffix(" with places") {
        None => (head, false),
        Some(front) => (front, true),
    };
    let (head, level) = levelled(head)?;
    let (kind, declared) = match head.strip_prefix("members of ") {
        None => (kind_of(head)?, ""),
        Some(declared) => (Kind::Members, declared),
    };
    let (front, back) = surroundings(kind, declared);
    Some(Texts {
        kind,
        level,
        with_places,
        front,
        back,
    })
}
