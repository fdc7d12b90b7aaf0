use java_syntax::{InfixOperator, PrefixOperator, PrimitiveName, StepOperator};

/// What a listed text means beyond its class in the grammar.
#[derive(Copy, Clone)]
pub enum Meaning {
    /// Nothing: the class alone says what it is.
    Plain,
    /// A primitive type (JLS 4.2).
    Primitive(PrimitiveName),
    /// An operator before or behind a variable (JLS 15.14, 15.15).
    Step(StepOperator),
    /// An operator before an operand (JLS 15.15).
    Prefix(PrefixOperator),
    /// An operator between two operands (JLS 15.17 to 15.24).
    Infix(InfixOperator),
    /// An operator before an operand and, with the second meaning, between two operands (JLS 15.15, 15.18).
    Sign(PrefixOperator, InfixOperator),
}
