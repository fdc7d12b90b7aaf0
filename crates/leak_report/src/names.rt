// The missing names, in the order of their bytes.

ghost use Rattle.std.specs.Prelude.{◌≡◌, ◌++◌, ◌∷◌, ◌≤◌, drop, length, take, IfOk, OnOk};
ghost use Rattle.leak_report.specs.MissingNames.{ascending, comes_before, missing_text, names_text, placed};

use program_model::Program;
use program_texts::{name_bytes, put_name};
use rlc_base::{NameId, NameSet, NoMemory, Text};
use std::alloc::Global;

// Whether the text of the first name comes before that of the second.
fn comes_before(p: &Program, first: NameId, second: NameId) -> bool
    ensures { result ≡ comes_before p.now first second }
{
    name_bytes(p, first).cmp(name_bytes(p, second)).is_lt()
}

// In front of how many of these names a name comes, when they ascend.
fn place_of(p: &Program, name: NameId, names: &[NameId]) -> usize
    ensures within { result ≤ length names.now }
    ensures place { placed p.now name names.now ≡ take result names.now ++ name ∷ drop result names.now }
{
    'each: for at in 0..names.len() {
        if comes_before(p, name, names[at]) {
            return at;
        }
    }
    names.len()
}

// Puts a name in front of the first that it comes before, or at the end.
fn place(p: &Program, name: NameId, names: &mut Vec<NameId>) -> Result<(), NoMemory>
    ensures { OnOk result (names.new.items ≡ placed p.now name names.old.items) }
{
    let at = place_of(p, name, names);
    names.insert(at, name)?;
    Ok(())
}

// The names in the order of their bytes.
fn ascending(alloc: Global, p: &Program, names: NameSet) -> Result<Vec<NameId>, NoMemory>
    ensures { IfOk result (λ v. v.items ≡ ascending p.now names) }
{
    let mut sorted = Vec::new(alloc);
    'each: for number in 0..p.names.len() {
        let name = NameId(number);
        if names.contains(name) {
            place(p, name, &mut sorted)?;
        }
    }
    Ok(sorted)
}

// Puts these names, each with a space in front of it.
fn put_names(p: &Program, names: &[NameId], into: &mut Text) -> Result<(), NoMemory>
    ensures { OnOk result (into.new ≡ into.old ++ names_text p.now names.now) }
{
    'each: for name in names {
        into.push_bytes(b" ")?;
        put_name(p, *name, into)?;
    }
    Ok(())
}

/// Puts the names in the order of their bytes, each with a space in front of it.
pub(crate) fn put_missing(
    alloc: Global,
    p: &Program,
    names: NameSet,
    into: &mut Text,
) -> Result<(), NoMemory>
    ensures { OnOk result (into.new ≡ into.old ++ missing_text p.now names) }
{
    let sorted = ascending(alloc, p, names)?;
    put_names(p, &sorted, into)
}
