//! The integer operations (JLS 4.2.2) on values of type `int` and `long`, and the narrowing of a value (JLS 5.1.3). An
//! operation takes the type of its operands, after promotion; each operand is a value of that type.

ghost use Rattle.std.specs.Prelude.{◌≡◌, ◌^◌, ◌%◌, pos, ◌≤◌, ◌<◌};
ghost use Rattle.std.specs.Int.{w64, cast_unsigned, IsNonZero};
ghost use Rattle.java_constants.specs.Arithmetic.{add, as_byte, as_char, as_int, complement, converted, distance, divide, multiply, negate, of_width, remainder, shift_left, shift_right, shift_right_unsigned, subtract};

use program_model::{OperandType, Primitive};

fn low_32(value: i64) -> u32
    ensures { result ≡ cast_unsigned w64 value % 2 ^ 32 }
{
    (value.cast_unsigned() % 0x1_0000_0000) as u32
}

/// The `int` with the lowest 32 bits of the value (JLS 5.1.3).
pub fn as_int(value: i64) -> i64
    ensures { result ≡ as_int value }
{
    i64::from(low_32(value).cast_signed())
}

/// The `byte` with the lowest 8 bits of the value (JLS 5.1.3).
pub fn as_byte(value: i64) -> i64
    ensures { result ≡ as_byte value }
{
    let bits = (value.cast_unsigned() % 256) as u8;
    i64::from(bits.cast_signed())
}

/// The `char` with the lowest 16 bits of the value (JLS 5.1.3).
pub fn as_char(value: i64) -> i64
    ensures { result ≡ as_char value }
{
    (value.cast_unsigned() % 65536) as i64
}

/// The value cast to a primitive type (JLS 5.1.2, 5.1.3). Of a truth value the only cast is that to `boolean`.
pub fn converted(to: Primitive, value: i64) -> i64
    ensures { result ≡ converted to value }
{
    match to {
        Primitive::Boolean => value,
        Primitive::Byte => as_byte(value),
        Primitive::Char => as_char(value),
        Primitive::Int => as_int(value),
        Primitive::Long => value,
    }
}

/// A result of 64 bits cut to the type of the operation: to 32 bits for `int`.
pub fn of_width(t: OperandType, value: i64) -> i64
    ensures { result ≡ of_width t value }
{
    match t {
        OperandType::Int => as_int(value),
        _ => value,
    }
}

/// `a + b` (JLS 15.18.2), which wraps.
pub fn add(t: OperandType, a: i64, b: i64) -> i64
    ensures { result ≡ add t a b }
{
    of_width(t, a.wrapping_add(b))
}

/// `a - b` (JLS 15.18.2), which wraps.
pub fn subtract(t: OperandType, a: i64, b: i64) -> i64
    ensures { result ≡ subtract t a b }
{
    of_width(t, a.wrapping_sub(b))
}

/// `a * b` (JLS 15.17.1), which wraps.
pub fn multiply(t: OperandType, a: i64, b: i64) -> i64
    ensures { result ≡ multiply t a b }
{
    of_width(t, a.wrapping_mul(b))
}

/// `-a` (JLS 15.15.4), which wraps.
pub fn negate(t: OperandType, a: i64) -> i64
    ensures { result ≡ negate t a }
{
    of_width(t, a.wrapping_neg())
}

/// `a / b` (JLS 15.17.2), rounded toward 0. The least value by -1 is itself.
pub fn divide(t: OperandType, a: i64, b: i64) -> i64
    requires { IsNonZero w64 b }
    ensures { result ≡ divide t a b }
{
    of_width(t, a.wrapping_div(b))
}

/// `a % b` (JLS 15.17.3), with the sign of `a`.
pub fn remainder(a: i64, b: i64) -> i64
    requires { IsNonZero w64 b }
    ensures { result ≡ remainder a b }
{
    a.wrapping_rem(b)
}

fn distance(t: OperandType, b: i64) -> u32
    ensures value { result ≡ distance t b }
    ensures range { result < 64 }
{
    match t {
        OperandType::Int => (b.cast_unsigned() % 32) as u32,
        _ => (b.cast_unsigned() % 64) as u32,
    }
}

/// `a << b` (JLS 15.19): of `b` the lowest five bits count, and six where `a` is a `long`.
pub fn shift_left(t: OperandType, a: i64, b: i64) -> i64
    ensures { result ≡ shift_left t a b }
{
    of_width(t, a << distance(t, b))
}

/// `a >> b` (JLS 15.19), with the sign brought in.
pub fn shift_right(t: OperandType, a: i64, b: i64) -> i64
    ensures { result ≡ shift_right t a b }
{
    a >> distance(t, b)
}

/// `a >>> b` (JLS 15.19), with zeros brought in.
pub fn shift_right_unsigned(t: OperandType, a: i64, b: i64) -> i64
    ensures { result ≡ shift_right_unsigned t a b }
{
    match t {
        OperandType::Int => {
            let shifted = low_32(a) >> ((b.cast_unsigned() % 32) as u32);
            i64::from(shifted.cast_signed())
        }
        _ => {
            let shifted = a.cast_unsigned() >> ((b.cast_unsigned() % 64) as u32);
            shifted.cast_signed()
        }
    }
}

/// `~a` (JLS 15.15.5).
pub fn complement(a: i64) -> i64
    ensures { result ≡ complement a }
{
    !a
}
