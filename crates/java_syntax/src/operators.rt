/// The operators before one operand (JLS 15.15), but `++` and `--`.
#[derive(Clone, Copy)]
pub enum PrefixOperator {
    /// `+`.
    Plus,
    /// `-`.
    Minus,
    /// `!`.
    Not,
    /// `~`.
    Complement,
}

/// `++` and `--` (JLS 15.14, 15.15).
#[derive(Clone, Copy)]
pub enum StepOperator {
    /// `++`.
    Increment,
    /// `--`.
    Decrement,
}

/// The operators between two operands (JLS 15.17 to 15.24), but `instanceof`.
#[derive(Clone, Copy)]
pub enum InfixOperator {
    /// `*`.
    Multiply,
    /// `/`.
    Divide,
    /// `%`.
    Remainder,
    /// `+`.
    Add,
    /// `-`.
    Subtract,
    /// `<<`.
    ShiftLeft,
    /// `>>`.
    ShiftRight,
    /// `>>>`.
    ShiftRightUnsigned,
    /// `<`.
    Less,
    /// `>`.
    Greater,
    /// `<=`.
    LessOrEqual,
    /// `>=`.
    GreaterOrEqual,
    /// `==`.
    Equal,
    /// `!=`.
    NotEqual,
    /// `&`.
    And,
    /// `^`.
    Xor,
    /// `|`.
    Or,
    /// `&&`.
    ConditionalAnd,
    /// `||`.
    ConditionalOr,
}
