//! What values read as.

ghost use Rattle.std.specs.Prelude.{◌≡◌};
ghost use Rattle.ledger_state.specs.Values.{default_element, default_of, is_null, is_text, is_true, literal_value, number_in, number_of, truth_value};

use crate::value::Value;
use program_model::{ElementType, Literal, VType};

impl Value {
    /// Whether the value reads as null.
    pub fn is_null(self) -> bool
        ensures { result ≡ is_null self }
    {
        match self {
            Value::Nothing | Value::Null => true,
            Value::Text | Value::Number(_) | Value::Object(_) | Value::Array(_) => false,
        }
    }

    /// The number that the value reads as.
    pub fn number(self) -> i64
        ensures { result ≡ number_in self }
    {
        match self {
            Value::Number(number) => number,
            Value::Nothing | Value::Null | Value::Text | Value::Object(_) | Value::Array(_) => 0,
        }
    }

    /// Whether the value reads as true.
    pub fn is_true(self) -> bool
        ensures { result ≡ is_true self }
    {
        self.number() != 0
    }

    /// Whether the value is a text.
    pub fn is_text(self) -> bool
        ensures { result ≡ is_text self }
    {
        matches!(self, Value::Text)
    }

    /// The number of the class object that the value is.
    pub fn object(self) -> Option<u64>
        ensures { result ≡ number_of self }
    {
        match self {
            Value::Object(number) => Some(number),
            Value::Nothing | Value::Null | Value::Text | Value::Number(_) | Value::Array(_) => None,
        }
    }

    /// A truth value.
    pub fn truth(value: bool) -> Value
        ensures { result ≡ truth_value value }
    {
        Value::Number(if value { 1 } else { 0 })
    }
}

/// The value that a variable, field or element of the type begins with (JLS 4.12.5).
pub fn default_of(vtype: VType) -> Value
    ensures { result ≡ default_of vtype }
{
    match vtype {
        VType::Primitive(_) => Value::Number(0),
        VType::Str | VType::Arr(_) | VType::Obj(_) | VType::NullType => Value::Null,
    }
}

/// The value that an element of an array begins with.
pub fn default_element(element: ElementType) -> Value
    ensures { result ≡ default_element element }
{
    match element {
        ElementType::Primitive(_) => Value::Number(0),
        ElementType::Str => Value::Null,
    }
}

/// The value of a literal (JLS 15.8.1).
pub fn literal_value(literal: Literal) -> Value
    ensures { result ≡ literal_value literal }
{
    match literal {
        Literal::Number(number) => Value::Number(number),
        Literal::Character(unit) => Value::Number(i64::from(unit)),
        Literal::Boolean(value) => Value::truth(value),
        Literal::Text => Value::Text,
        Literal::Null => Value::Null,
    }
}
