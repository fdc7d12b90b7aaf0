//! What one line of a choices file says.

ghost use Rattle.std.specs.Prelude.{◌≡◌, ◌-◌, ◌^◌, ◌==◌, ◌<◌, length, IfSome};
ghost use Rattle.std.specs.List.{list_all, position};
ghost use Rattle.std.specs.Char.{is_ascii};
ghost use Rattle.choices_file.specs.Lines.{choice_of, counted, cut_at, is_passed_over, meaning, pair_of};
ghost use Rattle.choices_file.specs.Numbers.{number_up_to};

use crate::numbers::{number_up_to, value_in};
use stub_conduct::Choice;

/// What a line says.
#[derive(Clone, Copy)]
pub enum Line {
    /// Nothing: it is empty, or a comment.
    Skipped,
    /// The length of the argument of `main`.
    Arguments(u32),
    /// What the next call of the library does.
    Chosen(Choice),
    /// It is no line of a choices file.
    Wrong,
}

// Whether each byte is an ASCII character.
fn is_ascii(line: &[u8]) -> bool
    ensures { result ≡ list_all (λ b. is_ascii b) line.now }
{
    line.iter().all(|byte| byte.is_ascii())
}

// Whether a line is empty or a comment.
fn is_passed_over(line: &[u8]) -> bool
    ensures { result ≡ is_passed_over line.now }
{
    match line {
        [] => true,
        [first, ..] => *first == b'#',
    }
}

fn first_space(line: &[u8]) -> Option<usize>
    ensures first { result ≡ position (λ b. b == 32) line.now }
    ensures bound { IfSome result (λ place. place < length line.now) }
{
    line.iter().position(|byte| *byte == b' ')
}

// The choice of a way with a value.
fn choice_of(way: &[u8], value: i64) -> Line
    ensures { result ≡ choice_of way.now value }
{
    match number_up_to(way, (1 << 32) - 1) {
        Some(way) => Line::Chosen(Choice {
            way: way as u32,
            value,
        }),
        None => Line::Wrong,
    }
}

// The length of the argument of `main`.
fn arguments_of(count: &[u8]) -> Line
    ensures { result ≡ counted (number_up_to (2 ^ 31 - 1) count.now) }
{
    match number_up_to(count, (1 << 31) - 1) {
        Some(count) => Line::Arguments(count as u32),
        None => Line::Wrong,
    }
}

// What a word with something behind a space says.
fn pair_of(word: &[u8], rest: &[u8]) -> Line
    ensures { result ≡ pair_of word.now rest.now }
{
    if word == b"args".as_slice() {
        return arguments_of(rest);
    }
    match value_in(rest) {
        Some(value) => choice_of(word, value),
        None => Line::Wrong,
    }
}

// What a line that says something says.
fn cut(line: &[u8]) -> Line
    ensures { result ≡ cut_at (position (λ b. b == 32) line.now) line.now }
{
    match first_space(line) {
        Some(place) => pair_of(&line[..place], &line[place + 1..]),
        None => choice_of(line, 0),
    }
}

/// What a line says.
pub fn meaning(line: &[u8]) -> Line
    ensures { result ≡ meaning line.now }
{
    if !is_ascii(line) {
        Line::Wrong
    } else if is_passed_over(line) {
        Line::Skipped
    } else {
        cut(line)
    }
}
