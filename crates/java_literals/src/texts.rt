//! The texts of string literals.

ghost use Rattle.std.specs.Prelude.{◌≡◌, ◌<◌, ◌^◌, ◌++◌, IfOk, IfSome, OnOk, option_map, if◌then◌else◌};
ghost use Rattle.java_literals.specs.Texts.{HasRoom, after, end_of_text, escape_step, first_digit, in_utf8, last_digit, middle_digit, octal_digit, plain_step, text_from, text_of_literal, text_step};

use crate::characters::{escape_of, is_octal_digit};
use crate::values::{first_byte, within_quotes};
use rlc_base::{NoMemory, Text};
use std::alloc::Global;

/// What a byte of a string literal stands in (JLS 3.10.7).
#[derive(Clone, Copy)]
pub enum Within {
    /// No escape.
    Plain,
    /// Behind a backslash.
    Backslash,
    /// An octal escape of this value so far, which one more digit may go on with.
    OneDigit(u8),
    /// An octal escape of this value so far, which two more digits may go on with.
    TwoDigits(u8),
}

// Puts a character up to U+00FF at the end of a text in UTF-8.
fn push_character(text: &mut Vec<u8>, character: u8) -> Result<(), NoMemory>
    ensures { OnOk result (text.new.items ≡ text.old.items ++ in_utf8 character) }
{
    if character < 128 {
        text.push(character)?;
    } else if character < 192 {
        text.push(194)?;
        text.push(character)?;
    } else {
        text.push(195)?;
        text.push(character - 64)?;
    }
    Ok(())
}

// The value of an octal digit.
fn octal_digit(byte: u8) -> Option<u8>
    ensures value { result ≡ octal_digit byte }
    ensures small { IfSome result (λ d. d < 8) }
{
    if is_octal_digit(byte) {
        Some(byte - b'0')
    } else {
        None
    }
}

// A byte in no escape: what it adds to the text, and what the next one stands in.
fn plain_step(text: &mut Vec<u8>, byte: u8) -> Result<Within, NoMemory>
    ensures step { IfOk result (λ next. (text.new.items, next) ≡ after text.old.items (plain_step byte)) }
    ensures room { IfOk result HasRoom }
{
    if byte == b'\\' {
        return Ok(Within::Backslash);
    }
    text.push(byte)?;
    Ok(Within::Plain)
}

// What stands behind the first digit of an octal escape.
fn first_digit(digit: u8) -> Within
    requires { digit < 8 }
    ensures state { result ≡ first_digit digit }
    ensures room { HasRoom result }
{
    if digit <= 3 {
        Within::TwoDigits(digit)
    } else {
        Within::OneDigit(digit)
    }
}

// A byte behind a backslash.
fn escape_step(text: &mut Vec<u8>, byte: u8) -> Result<Option<Within>, NoMemory>
    ensures step { IfOk result (λ next. option_map (λ state. (text.new.items, state)) next ≡ option_map (after text.old.items) (escape_step (octal_digit byte) byte)) }
    ensures room { IfOk result (λ next. IfSome next HasRoom) }
{
    if let Some(digit) = octal_digit(byte) {
        return Ok(Some(first_digit(digit)));
    }
    match escape_of(byte) {
        Some(character) => {
            push_character(text, character as u8)?;
            Ok(Some(Within::Plain))
        }
        None => Ok(None),
    }
}

// A byte that may be the last digit of an octal escape.
fn last_digit(text: &mut Vec<u8>, value: u8, byte: u8) -> Result<Within, NoMemory>
    requires { value < 32 }
    ensures step { IfOk result (λ next. (text.new.items, next) ≡ after text.old.items (last_digit value (octal_digit byte) byte)) }
    ensures room { IfOk result HasRoom }
{
    match octal_digit(byte) {
        Some(digit) => {
            push_character(text, value * 8 + digit)?;
            Ok(Within::Plain)
        }
        None => {
            push_character(text, value)?;
            plain_step(text, byte)
        }
    }
}

// A byte that may be a digit of an octal escape with another one behind it.
fn middle_digit(text: &mut Vec<u8>, value: u8, byte: u8) -> Result<Within, NoMemory>
    requires { value < 4 }
    ensures step { IfOk result (λ next. (text.new.items, next) ≡ after text.old.items (middle_digit value (octal_digit byte) byte)) }
    ensures room { IfOk result HasRoom }
{
    match octal_digit(byte) {
        Some(digit) => Ok(Within::OneDigit(value * 8 + digit)),
        None => {
            push_character(text, value)?;
            plain_step(text, byte)
        }
    }
}

// What a byte adds to the text, and what the next one stands in; none where it makes no escape.
fn text_step(text: &mut Vec<u8>, state: Within, byte: u8) -> Result<Option<Within>, NoMemory>
    requires { HasRoom state }
    ensures step { IfOk result (λ next. option_map (λ s. (text.new.items, s)) next ≡ option_map (after text.old.items) (text_step state byte)) }
    ensures room { IfOk result (λ next. IfSome next HasRoom) }
{
    match state {
        Within::Plain => Ok(Some(plain_step(text, byte)?)),
        Within::Backslash => escape_step(text, byte),
        Within::OneDigit(value) => Ok(Some(last_digit(text, value, byte)?)),
        Within::TwoDigits(value) => Ok(Some(middle_digit(text, value, byte)?)),
    }
}

// Ends a text; whether it may end there.
fn end_of_text(text: &mut Vec<u8>, state: Within) -> Result<bool, NoMemory>
    ensures { IfOk result (λ ends. (if ends then Some text.new.items else None) ≡ option_map (λ more. text.old.items ++ more) (end_of_text state)) }
{
    match state {
        Within::Plain => Ok(true),
        Within::Backslash => Ok(false),
        Within::OneDigit(value) | Within::TwoDigits(value) => {
            push_character(text, value)?;
            Ok(true)
        }
    }
}

// The text that these bytes between quotes stand for.
fn text_between(alloc: Global, bytes: &[u8]) -> Result<Option<Text>, NoMemory>
    ensures { IfOk result (λ found. found ≡ text_from bytes.now Within.Plain) }
{
    let mut text = Vec::new(alloc);
    let mut state = Within::Plain;
    'each: for byte in bytes {
        match text_step(&mut text, state, *byte)? {
            Some(next) => state = next,
            None => return Ok(None),
        }
    }
    if end_of_text(&mut text, state)? {
        Ok(Some(Text::from_bytes(text)))
    } else {
        Ok(None)
    }
}

/// The text of a string literal in UTF-8, its escapes read (JLS 3.10.5, 3.10.7), where the literal is as it stands in the
/// source with its quotes; none for another literal.
///
/// # Errors
///
/// Memory may run out.
pub fn text_value(alloc: Global, literal: &[u8]) -> Result<Option<Text>, NoMemory>
    ensures { IfOk result (λ found. found ≡ text_of_literal literal.now) }
{
    if first_byte(literal) == b'"' {
        text_between(alloc, within_quotes(literal))
    } else {
        Ok(None)
    }
}
