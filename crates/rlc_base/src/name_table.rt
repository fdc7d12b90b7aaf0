ghost use Rattle.std.specs.Prelude.{◌≡◌, ◌<◌, ◌≤◌, ◌↔◌, [], ◌∷◌, ◌++◌, length, slice_get, IsOk, IfOk, IfSome, OnOk, OnErr, MatchOption};
ghost use Rattle.rlc_base.specs.Names.{place_of, with_name, texts, Holds, Lacks, IsTable};

use crate::faults::InternFail;
use crate::name_id::NameId;
use indexmap::IndexSet;
use std::alloc::Global;
use std::marker::Model;

/// How many names a table holds at most. Each number of a name is below it.
pub const MAX_NAMES: u32 = 128;

/// The ordered table of names: a name has one number, its place in the order in which names came.
/// Contracts see it as the list of its names.
#[derive(Drop)]
pub struct Names {
    table: IndexSet<Vec<u8>>,
}

impl Model for Names {
    ghost use Rattle.std.specs.Prelude.{ℕ, List};
    ghost use Rattle.rlc_base.specs.Names.{texts, IsTable};

    ghost Value = { List (List ℕ) };

    ghost view = { λ s. texts s.table.keys };

    ghost invariant = { λ s. IsTable (texts s.table.keys) };
}

impl Names {
    /// An empty table. It takes no memory yet.
    pub fn new(alloc: Global) -> Names
        ensures { result ≡ [] }
    {
        Names {
            table: IndexSet::new(alloc),
        }
    }

    /// The number of `name`, which is put at the end of the table where it is new.
    /// `TooManyNames` comes exactly where it is new and the table holds 128 names; `NoMemory` may come where it is new.
    /// A refused call leaves the table as it was.
    pub fn intern(&mut self, name: &[u8]) -> Result<NameId, InternFail>
        ensures ok { IfOk result (λ n. n.0 ≡ place_of self.old name.now) }
        ensures stored { IfOk result (λ n. slice_get self.new n.0 ≡ Some name.now) }
        ensures below { IfOk result (λ n. n.0 < 128) }
        ensures table { OnOk result (self.new ≡ with_name self.old name.now) }
        ensures held { Holds self.old name.now → IsOk result }
        ensures full { (result ≡ Err InternFail.TooManyNames) ↔ (Lacks self.old name.now × (128 ≤ length self.old)) }
        ensures err { OnErr result (self.new ≡ self.old) }
        ensures table_stays { IsTable self.new }
    {
        if let Some(place) = place_in(&self.table, name) {
            return Ok(NameId(place));
        }
        let count = count_of(&self.table);
        if count >= MAX_NAMES {
            return Err(InternFail::TooManyNames);
        }
        put_last(&mut self.table, name)?;
        Ok(NameId(count))
    }

    /// The number of `name`, if the table holds it. It takes no memory.
    pub fn find(&self, name: &[u8]) -> Option<NameId>
        ensures found { MatchOption result (Lacks self.now name.now)
            (λ n. (n.0 ≡ place_of self.now name.now) × Holds self.now name.now) }
        ensures stored { IfSome result (λ n. slice_get self.now n.0 ≡ Some name.now) }
        ensures table { IsTable self.now }
    {
        let Some(place) = place_in(&self.table, name) else {
            return None;
        };
        Some(NameId(place))
    }

    /// The name with the number `n`. It takes no memory.
    pub fn text(&self, n: NameId) -> &[u8]
        requires { n.0 < length self.now }
        ensures name { slice_get self.now n.0 ≡ Some result.now }
        ensures table { IsTable self.now }
    {
        key_at(&self.table, n.0)
    }

    /// The number of names held, at most 128. It takes no memory.
    pub fn len(&self) -> u32
        ensures len { result ≡ length self.now }
        ensures table { IsTable self.now }
    {
        count_of(&self.table)
    }
}

// The place of the key that is `name`, in a set of at most 128 keys.
fn place_in(table: &IndexSet<Vec<u8>>, name: &[u8]) -> Option<u32>
    requires { length (texts table.now.keys) ≤ 128 }
    ensures found { MatchOption result (Lacks (texts table.now.keys) name.now)
        (λ p. (p ≡ place_of (texts table.now.keys) name.now) × Holds (texts table.now.keys) name.now) }
    ensures stored { IfSome result (λ p. slice_get (texts table.now.keys) p ≡ Some name.now) }
{
    let Some(place) = table.get_index_of(name) else {
        return None;
    };
    Some(place as u32)
}

// The number of keys.
fn count_of(table: &IndexSet<Vec<u8>>) -> u32
    requires { length (texts table.now.keys) ≤ 128 }
    ensures { result ≡ length (texts table.now.keys) }
{
    table.len() as u32
}

// The key at a place.
fn key_at(table: &IndexSet<Vec<u8>>, place: u32) -> &[u8]
    requires { place < length (texts table.now.keys) }
    ensures { slice_get (texts table.now.keys) place ≡ Some result.now }
{
    let keys = table.as_slice();
    keys[place as usize].as_slice()
}

// Puts a key that the table lacks at its end. Where memory runs out the keys stay.
fn put_last(table: &mut IndexSet<Vec<u8>>, name: &[u8]) -> Result<(), InternFail>
    requires table { IsTable (texts table.old.keys) }
    requires room { length (texts table.old.keys) < 128 }
    requires new { Lacks (texts table.old.keys) name.now }
    ensures table { IsTable (texts table.new.keys) }
    ensures ok { OnOk result (texts table.new.keys ≡ texts table.old.keys ++ name.now ∷ []) }
    ensures last { OnOk result (slice_get (texts table.new.keys) (length (texts table.old.keys)) ≡ Some name.now) }
    ensures err { OnErr result (texts table.new.keys ≡ texts table.old.keys) }
    ensures cause { result ≡ Err InternFail.TooManyNames → ⊥ }
{
    let alloc = *table.allocator();
    let key = name.to_vec(alloc)?;
    table.insert(key)?;
    Ok(())
}
