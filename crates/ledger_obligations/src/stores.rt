//! A store into an owning field.

ghost use Rattle.std.specs.Prelude.{◌≡◌, IfOk};
ghost use Rattle.program_model.specs.Lookups.{field_at};
ghost use Rattle.ledger_state.specs.Fields.{field_of};
ghost use Rattle.ledger_state.specs.Heaps.{root_of};
ghost use Rattle.ledger_obligations.specs.Obligations.{displaced, displaces, moved_where, moves_in, resets_holder, roots_where, type_of_field};

use crate::heap_changes::is_field;
use crate::moves::{own, release};
use crate::resets::reached;
use crate::unmet::{is_finished, is_unmet_root, may_move_root, owner_of_root};
use ledger_state::{Heap, Owner, Value, field_of, same_root};
use program_model::{FieldId, Program, VType};
use rlc_base::NoMemory;
use std::alloc::Global;

/// A store of a value into an owning field of an object.
#[derive(Clone, Copy)]
pub struct OwningStore {
    /// The object's number.
    pub holder: u64,
    pub field: FieldId,
    /// The value is the aliased argument of the alias constructor that runs: it does not move.
    pub bound: bool,
    pub value: Value,
}

fn type_of_field(p: &Program, field: FieldId) -> VType
    ensures { result ≡ type_of_field (field_at p.now field) }
{
    match p.field(field) {
        None => VType::NullType,
        Some(found) => found.vtype,
    }
}

// The old content has another root than the new value, and this field owns it.
fn displaces(heap: &Heap, s: OwningStore, old: Value) -> bool
    ensures { result ≡ displaces heap.now s.holder s.field old s.value }
{
    let root = heap.root_of(old);
    is_field(owner_of_root(heap, root), s.holder, s.field)
        && !same_root(root, heap.root_of(s.value))
}

// The value moves with the store.
fn moves_in(p: &Program, heap: &Heap, s: OwningStore) -> bool
    ensures { result ≡ moves_in p.now heap.now s.field s.bound s.value }
{
    !s.bound && may_move_root(p, heap, type_of_field(p, s.field), heap.root_of(s.value))
}

// A moved value that is unmet and has another root than the old content has a finished holder reset.
fn resets_holder(p: &Program, heap: &Heap, s: OwningStore, old: Value) -> bool
    ensures { result ≡ resets_holder p.now heap.now s.holder s.field s.bound old s.value }
{
    let root = heap.root_of(s.value);
    moves_in(p, heap, s)
        && is_unmet_root(heap, root)
        && !same_root(heap.root_of(old), root)
        && is_finished(heap, s.holder)
}

/// The store gives up the old content, where the field owns it.
pub fn displace(p: &Program, s: OwningStore, heap: &mut Heap)
    ensures { heap.new ≡ displaced p.now heap.old s.holder s.field s.value }
{
    let old = field_of(p, heap, Value::Object(s.holder), s.field);
    let root = heap.root_of(old);
    let released = displaces(heap, s, old);
    release(released, root, heap);
}

/// Then the value moves to the field, as `before` says, the heap before the store.
pub fn move_in(p: &Program, s: OwningStore, before: &Heap, heap: &mut Heap)
    ensures { heap.new ≡ moved_where (moves_in p.now before.now s.field s.bound s.value) (root_of before.now s.value) (Owner.Field s.holder s.field) heap.old }
{
    let moved = moves_in(p, before, s);
    let root = before.root_of(s.value);
    own(moved, root, Owner::Field(s.holder, s.field), heap);
}

/// The roots that are then reset: those that a reset of the holder reaches, where the store resets it, as `before` says, the
/// heap before the store.
pub fn holder_roots(
    alloc: Global,
    p: &Program,
    s: OwningStore,
    before: &Heap,
    heap: &Heap,
) -> Result<Vec<u64>, NoMemory>
    ensures { IfOk result (λ v. v.items ≡ roots_where (resets_holder p.now before.now s.holder s.field s.bound (field_of p.now before.now (Value.Object s.holder) s.field) s.value) heap.now s.holder) }
{
    let old = field_of(p, before, Value::Object(s.holder), s.field);
    if resets_holder(p, before, s, old) {
        reached(alloc, heap, Some(s.holder))
    } else {
        Ok(Vec::new(alloc))
    }
}
