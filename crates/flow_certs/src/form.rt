//! The form of a certificate.

ghost use Rattle.std.specs.Prelude.{◌≡◌, ◌+◌, ◌<◌, ◌^◌, length};
ghost use Rattle.flow_certs.specs.Forms.{after, after_bodies, body_count, first_wrong, is_ended, is_none};

use crate::line::{count_in, is_end, is_head, pair_in};
use crate::numbers::cut;
use program_model::{BodyId, Program};

/// Where a text stands between two lines.
#[derive(Clone, Copy)]
pub enum Stage {
    /// The first line comes next.
    Head,
    /// The line of the body of this number comes next, or the last line where no such body is; but first so many pairs of the body before.
    Within(u32, usize),
    /// Nothing more comes.
    Ended,
}

// Where the text stands after the line of a body, or after the last line.
fn after_bodies(p: &Program, next: u32, line: &[u8]) -> Option<Stage>
    requires { body_count p.now < 2 ^ 32 }
    ensures { result ≡ after_bodies p.now next line.now }
{
    if (next as usize) < p.bodies.len() {
        let count = count_in(next, line)?;
        Some(Stage::Within(next + 1, count))
    } else if is_end(line) {
        Some(Stage::Ended)
    } else {
        None
    }
}

// Where the text stands after a line; none where the line can't stand there.
fn after(p: &Program, stage: Stage, line: &[u8]) -> Option<Stage>
    requires { body_count p.now < 2 ^ 32 }
    ensures { result ≡ after p.now stage line.now }
{
    match stage {
        Stage::Head => {
            if is_head(line) {
                Some(Stage::Within(0, 0))
            } else {
                None
            }
        }
        Stage::Within(next, left) => {
            if left > 0 {
                let _pair = pair_in(p, BodyId(next.saturating_sub(1)), line)?;
                Some(Stage::Within(next, left - 1))
            } else {
                after_bodies(p, next, line)
            }
        }
        Stage::Ended => None,
    }
}

fn is_ended(stage: Stage) -> bool
    ensures { result ≡ is_ended stage }
{
    match stage {
        Stage::Ended => true,
        Stage::Head | Stage::Within(_, _) => false,
    }
}

fn is_empty(line: &[u8]) -> bool
    ensures { result ≡ is_none line.now }
{
    match line {
        [] => true,
        [_, ..] => false,
    }
}

/// The number of the first line with which no certificate begins; where each line begins one and the text is none, that of the line in
/// which the text ends. None where the text is of the form of a certificate.
pub(crate) fn first_wrong(p: &Program, bytes: &[u8]) -> Option<u32>
    requires bodies { body_count p.now < 2 ^ 32 }
    requires fits { length bytes.now + 1 < 2 ^ 32 }
    ensures { result ≡ first_wrong p.now bytes.now }
{
    let mut rest = bytes;
    let mut stage = Stage::Head;
    let mut number = 1;
    'lines: while let Some((line, more)) = cut(rest, b'\n') {
        match after(p, stage, line) {
            None => return Some(number),
            Some(next) => stage = next,
        }
        rest = more;
        number += 1;
    }
    if is_ended(stage) && is_empty(rest) {
        None
    } else {
        Some(number)
    }
}
