//! The lines of a certificate.

ghost use Rattle.std.specs.Prelude.{◌<◌, ◌≤◌, ℕ, length};
ghost use Rattle.breadth_first.specs.Searches.{IsAt};
ghost use Rattle.fact_pool.specs.Regions.{list_of};
ghost use Rattle.fact_pool.specs.declared.handle.Handle.{Handle as DeclaredHandle};

use fact_pool::{Handle, Pool, Region};
use java_cfg::MAX_VARIABLES;
use java_control::{Fact, Mode, Place, Places};
use program_model::{BodyId, Program};
use rlc_base::{NameId, NameSet, NoMemory};
use std::alloc::Global;

/// Puts a number in decimal digits.
pub(crate) fn put_number(alloc: Global, number: u64, into: &mut Vec<u8>) -> Result<(), NoMemory> {
    let digits = format!(in alloc; "{number}")?;
    into.extend_from_slice(digits.as_bytes())?;
    Ok(())
}

// Puts a comma where something stands behind the first so many bytes.
fn put_comma(start: usize, into: &mut Vec<u8>) -> Result<(), NoMemory> {
    if into.len() > start {
        into.extend_from_slice(b",")?;
    }
    Ok(())
}

// Puts a word with a number, which may stand behind others.
fn put_numbered(
    alloc: Global,
    start: usize,
    word: &[u8],
    number: u32,
    into: &mut Vec<u8>,
) -> Result<(), NoMemory> {
    put_comma(start, into)?;
    into.extend_from_slice(word)?;
    put_number(alloc, u64::from(number), into)
}

// Puts the variables of a set of places, of which the body has so many.
fn put_variables(
    alloc: Global,
    count: u32,
    places: Places,
    into: &mut Vec<u8>,
) -> Result<(), NoMemory>
    requires { count ≤ 160 }
{
    let start = into.len();
    for variable in 0..count {
        if places.contains(Place::Var(variable)) {
            put_numbered(alloc, start, b"v", variable, into)?;
        }
    }
    Ok(())
}

// Puts the places of a set behind the variables, where the words begin behind the first so many bytes.
fn put_others(
    alloc: Global,
    start: usize,
    places: Places,
    into: &mut Vec<u8>,
) -> Result<(), NoMemory> {
    if places.contains(Place::This) {
        put_comma(start, into)?;
        into.extend_from_slice(b"this")?;
    }
    for field in 0..16u32 {
        if places.contains(Place::Field(field)) {
            put_numbered(alloc, start, b"f", field, into)?;
        }
    }
    for depth in 0..64u32 {
        if places.contains(Place::Temp(depth)) {
            put_numbered(alloc, start, b"t", depth, into)?;
        }
    }
    if places.contains(Place::Super) {
        put_comma(start, into)?;
        into.extend_from_slice(b"super")?;
    }
    Ok(())
}

fn mode_word(mode: Mode) -> &'static [u8] {
    match mode {
        Mode::Own => b"own",
        Mode::None => b"none",
        Mode::Held => b"held",
        Mode::Lent => b"lent",
        Mode::Alias => b"alias",
    }
}

// Puts the numbers of names, of which the table has so many, or `-` for none.
fn put_names(
    alloc: Global,
    count: u32,
    names: NameSet,
    into: &mut Vec<u8>,
) -> Result<(), NoMemory> {
    if names.is_empty() {
        into.extend_from_slice(b"-")?;
        return Ok(());
    }
    let start = into.len();
    for number in 0..count {
        if names.contains(NameId(number)) {
            put_numbered(alloc, start, b"", number, into)?;
        }
    }
    Ok(())
}

// How many variables a body has, as far as sets of places have room for them.
fn variable_count(p: &Program, b: BodyId) -> u32
    ensures { result ≤ 160 }
{
    match p.body(b) {
        None => 0,
        Some(body) => body.vars.len().min(MAX_VARIABLES) as u32,
    }
}

// What a line says of a fact: the number of its origin, its places, its mode, the called names, and its need.
fn fact_words(alloc: Global, p: &Program, b: BodyId, fact: &Fact) -> Result<Vec<u8>, NoMemory> {
    let mut words = Vec::new(alloc);
    put_number(alloc, u64::from(fact.origin), &mut words)?;
    words.extend_from_slice(b" ")?;
    let start = words.len();
    put_variables(alloc, variable_count(p, b), fact.places, &mut words)?;
    put_others(alloc, start, fact.places, &mut words)?;
    words.extend_from_slice(b" ")?;
    words.extend_from_slice(mode_word(fact.mode))?;
    words.extend_from_slice(b" ")?;
    put_names(alloc, p.names.len(), fact.called, &mut words)?;
    words.extend_from_slice(if fact.full { b" full" } else { b" first" })?;
    Ok(words)
}

/// The pairs of a body in the order of their nodes and then of their words: the node of each, and what its line says of the fact.
pub(crate) fn pair_lines(
    alloc: Global,
    p: &Program,
    b: BodyId,
    pool: &Pool<Fact>,
    region: &Region,
    pairs: &[(u32, Handle)],
) -> Result<Vec<(u32, Vec<u8>)>, NoMemory>
    requires { (i : ℕ) (x : ℕ × DeclaredHandle) → IsAt pairs.now i x → x.1.0 < length (list_of pool.now region.now) }
{
    let mut known = Vec::new(alloc);
    let mut lines = Vec::new(alloc);
    'pairs: for (node, handle) in pairs {
        let place = handle.0 as usize;
        'facts: while known.len() <= place {
            let next = Handle(known.len() as u32);
            known.push(fact_words(alloc, p, b, &pool.get(region, next))?)?;
        }
        lines.push((*node, known[place].clone()?))?;
    }
    lines.sort()?;
    Ok(lines)
}
