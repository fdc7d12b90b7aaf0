//! Which values a static field may have.

ghost use Rattle.std.specs.Prelude.{◌↔◌, IsTrue};
ghost use Rattle.program_model.specs.InitialValues.{FitsField, IsBoolean, IsInRange, IsNullable, IsNumberOf};

use program_model::{Literal, Primitive, VType};

fn is_in_range(n: i64, k: Primitive) -> bool
    ensures { IsTrue result ↔ IsInRange n k }
{
    match k {
        Primitive::Boolean => false,
        Primitive::Byte => -128 <= n && n <= 127,
        Primitive::Char => 0 <= n && n <= 65535,
        Primitive::Int => -2147483648 <= n && n <= 2147483647,
        Primitive::Long => true,
    }
}

fn is_number_of(n: i64, t: VType) -> bool
    ensures { IsTrue result ↔ IsNumberOf n t }
{
    match t {
        VType::Primitive(k) => is_in_range(n, k),
        _ => false,
    }
}

fn is_boolean(t: VType) -> bool
    ensures { IsTrue result ↔ IsBoolean t }
{
    match t {
        VType::Primitive(Primitive::Boolean) => true,
        _ => false,
    }
}

fn is_nullable(t: VType) -> bool
    ensures { IsTrue result ↔ IsNullable t }
{
    match t {
        VType::Primitive(_) => false,
        _ => true,
    }
}

/// Whether the literal is a value of the type: the table keeps no other one for a field of it.
pub(crate) fn fits_field(t: VType, literal: Literal) -> bool
    ensures { IsTrue result ↔ FitsField t literal }
{
    match literal {
        Literal::Number(n) => is_number_of(n, t),
        Literal::Character(c) => is_number_of(i64::from(c), t),
        Literal::Boolean(_) => is_boolean(t),
        Literal::Text => t == VType::Str,
        Literal::Null => is_nullable(t),
    }
}
