//! What one line of a certificate says.

ghost use Rattle.std.specs.Prelude.{◌≡◌, ◌∷◌, [], false, length, MatchOption};
ghost use Rattle.flow_certs.specs.Forms.{said_count};
ghost use Rattle.flow_certs.specs.Lines.{count_in, has_six, is_end, is_head, is_number, mode_in, names_in, need_in, pair_in, then_name};
ghost use Rattle.flow_certs.specs.Numbers.{number_below, number_in, parts};

use crate::numbers::{cut, number_below, number_in};
use crate::pair::Pair;
use crate::places::places_in;
use control_actions::{Fact, Mode};
use program_model::{BodyId, Program};
use rlc_base::{NameId, NameSet};

// The mode that a word names.
fn mode_in(word: &[u8]) -> Option<Mode>
    ensures { result ≡ mode_in word.now }
{
    if word == b"own".as_slice() {
        Some(Mode::Own)
    } else if word == b"none".as_slice() {
        Some(Mode::None)
    } else if word == b"held".as_slice() {
        Some(Mode::Held)
    } else if word == b"lent".as_slice() {
        Some(Mode::Lent)
    } else if word == b"alias".as_slice() {
        Some(Mode::Alias)
    } else {
        None
    }
}

// Whether the full set of the origin is needed.
fn need_in(word: &[u8]) -> Option<bool>
    ensures { result ≡ need_in word.now }
{
    if word == b"full".as_slice() {
        Some(true)
    } else if word == b"first".as_slice() {
        Some(false)
    } else {
        None
    }
}

// The names with that of one more number.
fn then_name(p: &Program, so_far: (u32, NameSet), word: &[u8]) -> Option<(u32, NameSet)>
    ensures { result ≡ then_name so_far (number_below (length p.now.names) word.now) }
{
    let number = number_below(p.names.len() as usize, word)? as u32;
    if number >= so_far.0 {
        Some((number + 1, so_far.1.insert(NameId(number))))
    } else {
        None
    }
}

// The names that a text lists.
fn names_in(p: &Program, text: &[u8]) -> Option<NameSet>
    ensures { result ≡ names_in p.now text.now }
{
    if text == b"-".as_slice() {
        return Some(NameSet::empty());
    }
    let mut rest = text;
    let mut so_far = (0, NameSet::empty());
    'words: while let Some((word, more)) = cut(rest, b',') {
        so_far = then_name(p, so_far, word)?;
        rest = more;
    }
    let all = then_name(p, so_far, rest)?;
    Some(all.1)
}

/// The six words of the line of a pair.
#[derive(Clone, Copy)]
struct PairWords<'a> {
    node: &'a [u8],
    origin: &'a [u8],
    places: &'a [u8],
    mode: &'a [u8],
    called: &'a [u8],
    need: &'a [u8],
}

// The words of a line that has six.
fn six_words(line: &[u8]) -> Option<PairWords>
    ensures { MatchOption result (has_six (parts 32 line.now) ≡ false) (λ w. parts 32 line.now ≡ w.node.now ∷ w.origin.now ∷ w.places.now ∷ w.mode.now ∷ w.called.now ∷ w.need.now ∷ []) }
{
    let (node, rest) = cut(line, b' ')?;
    let (origin, rest) = cut(rest, b' ')?;
    let (places, rest) = cut(rest, b' ')?;
    let (mode, rest) = cut(rest, b' ')?;
    let (called, need) = cut(rest, b' ')?;
    match cut(need, b' ') {
        Some(_) => None,
        None => Some(PairWords {
            node,
            origin,
            places,
            mode,
            called,
            need,
        }),
    }
}

/// The pair of the body that a line says.
#[tactic(auto, using(crate::proofs::LineLaws::no_pair))]
pub(crate) fn pair_in(p: &Program, b: BodyId, line: &[u8]) -> Option<Pair>
    ensures { result ≡ pair_in p.now b line.now }
{
    let words = six_words(line)?;
    let node = number_in(words.node)?;
    let origin = number_in(words.origin)?;
    let places = places_in(p, b, words.places)?;
    let mode = mode_in(words.mode)?;
    let called = names_in(p, words.called)?;
    let full = need_in(words.need)?;
    Some(Pair {
        node,
        origin,
        fact: Fact {
            origin: 0,
            places,
            mode,
            called,
            full,
        },
    })
}

// Whether a word is this number.
fn is_number(number: u32, word: &[u8]) -> bool
    ensures { result ≡ is_number number (number_in word.now) }
{
    match number_in(word) {
        None => false,
        Some(found) => found == number as usize,
    }
}

/// How many pairs follow a line, where it is that of the body with this number.
pub(crate) fn count_in(body: u32, line: &[u8]) -> Option<usize>
    ensures { result ≡ count_in body line.now }
{
    let (word, rest) = cut(line, b' ')?;
    let (number, count) = cut(rest, b' ')?;
    if cut(count, b' ').is_none() && word == b"body".as_slice() && is_number(body, number) {
        number_in(count)
    } else {
        None
    }
}

/// How many pairs the line of a body says.
pub(crate) fn said_count(body: u32, line: &[u8]) -> usize
    ensures { result ≡ said_count body line.now }
{
    match count_in(body, line) {
        None => 0,
        Some(count) => count,
    }
}

/// Whether a line is the first one of a certificate.
pub(crate) fn is_head(line: &[u8]) -> bool
    ensures { result ≡ is_head line.now }
{
    line == b"rlc-cert 1".as_slice()
}

/// Whether a line is the last one of a certificate.
pub(crate) fn is_end(line: &[u8]) -> bool
    ensures { result ≡ is_end line.now }
{
    line == b"end".as_slice()
}
