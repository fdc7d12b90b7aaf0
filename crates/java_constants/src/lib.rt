//! The arithmetic of the integral types (JLS 4.2.2), and the values of constant expressions (JLS 15.29). A value of type
//! `boolean`, `byte`, `char`, `int` or `long` is held as an `i64`; of `boolean`, `true` is 1 and `false` is 0.
#![tactic(auto)]

mod arithmetic;
mod folding;

pub use arithmetic::{
    add, as_byte, as_char, as_int, complement, converted, divide, multiply, negate, of_width,
    remainder, shift_left, shift_right, shift_right_unsigned, subtract,
};
pub use folding::{folded, folded_conditional, folded_unary};
