//! The pairs that the part of a body lists.

ghost use Rattle.std.specs.Prelude.{◌≡◌, ◌<◌, ◌∷◌, drop, length, IfOk, OnOk};
ghost use Rattle.flow_certs.specs.Forms.{AreSamePairs, IsPut, lines_of, pairs_in};

use crate::line::pair_in;
use crate::numbers::cut;
use crate::pair::Pair;
use indexmap::IndexSet;
use program_model::{BodyId, Program};
use std::alloc::{AllocError, Global};

/// The first line of a text that has one, and what stands behind it.
pub(crate) fn next_line(text: &[u8]) -> (&[u8], &[u8])
    requires { 1 < length (lines_of text.now) }
    ensures lines { lines_of text.now ≡ result.0.now ∷ lines_of result.1.now }
    ensures shorter { length result.1.now < length text.now }
{
    match cut(text, b'\n') {
        Some(found) => found,
        None => unreachable!(),
    }
}

/// The pairs that lines of a text say, each once, and what stands behind these lines.
#[derive(Drop)]
pub(crate) struct Listing<'a> {
    pub pairs: IndexSet<Pair>,
    pub rest: &'a [u8],
}

// Puts what a line says into a set of pairs.
fn put_said(pairs: &mut IndexSet<Pair>, said: Option<Pair>) -> Result<(), AllocError>
    ensures { OnOk result (IsPut said pairs.old.keys pairs.new.keys) }
{
    match said {
        None => Ok(()),
        Some(pair) => {
            pairs.insert_full(pair)?;
            Ok(())
        }
    }
}

/// The pairs that the first lines of a text say.
pub(crate) fn read_pairs<'a>(
    alloc: Global,
    p: &Program,
    b: BodyId,
    count: usize,
    text: &'a [u8],
) -> Result<Listing<'a>, AllocError>
    requires { count < length (lines_of text.now) }
    ensures pairs { IfOk result (λ l. AreSamePairs l.pairs.keys (pairs_in p.now b count (lines_of text.now))) }
    ensures rest { IfOk result (λ l. lines_of l.rest.now ≡ drop count (lines_of text.now)) }
{
    let mut pairs = IndexSet::new(alloc);
    let mut rest = text;
    'lines: for _ in 0..count {
        let (line, more) = next_line(rest);
        put_said(&mut pairs, pair_in(p, b, line))?;
        rest = more;
    }
    Ok(Listing { pairs, rest })
}
