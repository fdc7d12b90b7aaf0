use rlc_base::{Pos, Text};

/// An identifier, or identifiers joined by dots (JLS 6.2): a name where it is declared or used, or the name of a class.
#[derive(Drop)]
pub struct Name {
    /// Its identifiers, joined by `.` without blanks.
    pub text: Text,
    /// The place of its first identifier.
    pub pos: Pos,
}

/// The primitive types of the subset (JLS 4.2).
#[derive(Clone, Copy)]
pub enum PrimitiveName {
    /// `boolean`.
    Boolean,
    /// `byte`.
    Byte,
    /// `char`.
    Char,
    /// `int`.
    Int,
    /// `long`.
    Long,
}

/// What a type is without its brackets.
#[derive(Drop)]
pub enum TypeName {
    /// A primitive type.
    Primitive(PrimitiveName),
    /// The name of a class or an interface.
    Named(Text),
}

/// A type as it is written (JLS 4): a primitive type or a class, or an array of it.
#[derive(Drop)]
pub struct Typ {
    /// The type, or that of the elements.
    pub name: TypeName,
    /// `[]` stands behind it.
    pub is_array: bool,
    /// The place of its first token.
    pub pos: Pos,
}
