//! The facts of an expression that the rules of the expressions around it read.

ghost use Rattle.std.specs.Prelude.{◌≡◌};
ghost use Rattle.java_typed_trees.specs.Answers.{as_value, constant_at, erroneous, facts_in, mismatch, type_of, value_at, value_type};

use crate::shapes::Shape;
use program_model::VType;
use rlc_base::{Code, Pos};

/// What an expression gives (JLS 15.1).
#[derive(Clone, Copy)]
pub enum StaticType {
    /// A value of the type.
    Value(VType),
    /// Nothing: it is the call of a method without a result.
    Void,
    /// It has no type, and is refused or has a part that is.
    Erroneous,
}

/// All that a rule may ask of a part.
#[derive(Clone, Copy)]
pub struct Facts {
    pub static_type: StaticType,
    /// The value of a constant expression of a primitive type (JLS 15.29): of a truth value 1 and 0.
    pub constant: Option<i64>,
    /// The place of the expression.
    pub pos: Pos,
}

/// What the rule of an expression says of it, by the facts of its parts.
#[derive(Clone, Copy)]
pub enum Answer {
    /// It is of this shape, with these facts.
    Is(Shape, Facts),
    /// It has no type: the code and the place of the refusal.
    Wrong(Code, Pos),
    /// It has no type since a part has none, which is refused already. The place is that of the expression.
    Silent(Pos),
}

/// The facts of an expression without a type.
pub fn erroneous(pos: Pos) -> Facts
    ensures { result ≡ erroneous pos }
{
    Facts {
        static_type: StaticType::Erroneous,
        constant: None,
        pos,
    }
}

/// The facts of a value that is no constant.
pub fn value_at(pos: Pos, vtype: VType) -> Facts
    ensures { result ≡ value_at pos vtype }
{
    constant_at(pos, vtype, None)
}

/// The facts of a value, and which it is where it is constant (JLS 15.29).
pub fn constant_at(pos: Pos, vtype: VType, constant: Option<i64>) -> Facts
    ensures { result ≡ constant_at pos vtype constant }
{
    Facts {
        static_type: StaticType::Value(vtype),
        constant,
        pos,
    }
}

/// The type of the value that the expression gives. A call of a method without a result gives none.
pub fn type_of(facts: Facts) -> Option<VType>
    ensures { result ≡ type_of facts }
{
    match facts.static_type {
        StaticType::Value(found) => Some(found),
        StaticType::Void | StaticType::Erroneous => None,
    }
}

fn value_type(static_type: StaticType) -> StaticType
    ensures { result ≡ value_type static_type }
{
    match static_type {
        StaticType::Value(found) => StaticType::Value(found),
        StaticType::Void | StaticType::Erroneous => StaticType::Erroneous,
    }
}

/// The facts where a value is needed: the call of a method without a result has none (JLS 15.1).
pub fn as_value(facts: Facts) -> Facts
    ensures { result ≡ as_value facts }
{
    Facts {
        static_type: value_type(facts.static_type),
        ..facts
    }
}

/// What a rule's answer says of the expression.
pub fn facts_in(answer: Answer) -> Facts
    ensures { result ≡ facts_in answer }
{
    match answer {
        Answer::Is(_, facts) => facts,
        Answer::Wrong(_, pos) => erroneous(pos),
        Answer::Silent(pos) => erroneous(pos),
    }
}

/// The refusal of an expression or statement that has no type.
pub fn mismatch(pos: Pos) -> Answer
    ensures { result ≡ mismatch pos }
{
    Answer::Wrong(Code::Mismatch, pos)
}
