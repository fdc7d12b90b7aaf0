//! The names of the table in the order of their bytes.

ghost use Rattle.std.specs.Prelude.{◌≡◌, ◌<◌, ◌≤◌, length, IfOk, IfSome, OnOk};
ghost use Rattle.std.specs.List.{position_from};
ghost use Rattle.ledger_entries.specs.Entries.{comes_before, in_order, name_bytes, name_of_number, names_in_order, with_name};

use program_model::Program;
use rlc_base::{NameId, NoMemory};
use std::alloc::Global;
use std::cmp::Ordering;

fn name_bytes(p: &Program, name: NameId) -> &[u8]
    ensures { result.now ≡ name_bytes p.now name.0 }
{
    if name.0 < p.names.len() {
        p.names.text(name)
    } else {
        &[]
    }
}

fn comes_before(p: &Program, name: NameId, other: NameId) -> bool
    ensures { result ≡ comes_before p.now name.0 other }
{
    match name_bytes(p, name).cmp(name_bytes(p, other)) {
        Ordering::Less => true,
        Ordering::Equal | Ordering::Greater => false,
    }
}

fn place_among(p: &Program, name: NameId, names: &[NameId]) -> Option<usize>
    ensures place { result ≡ position_from (comes_before p.now name.0) 0 names.now }
    ensures within { IfSome result (λ i. i < length names.now) }
{
    names.iter().position(|other| comes_before(p, name, *other))
}

fn insert_name(p: &Program, name: NameId, names: &mut Vec<NameId>) -> Result<(), NoMemory>
    ensures { OnOk result (names.new.items ≡ with_name p.now name.0 names.old.items) }
{
    let place = match place_among(p, name, names) {
        None => names.len(),
        Some(place) => place,
    };
    names.insert(place, name)?;
    Ok(())
}

/// The names of the program's table in the order of their bytes.
pub fn names_in_order(alloc: Global, p: &Program) -> Result<Vec<NameId>, NoMemory>
    ensures { IfOk result (λ names. names.items ≡ names_in_order p.now) }
{
    let count = p.names.len();
    let mut names = Vec::new(alloc);
    'names: for done in 0..count {
        insert_name(p, NameId(count - 1 - done), &mut names)?;
    }
    Ok(names)
}
