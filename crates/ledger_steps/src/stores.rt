//! What a store into a field does to the heap.

ghost use Rattle.std.specs.Prelude.{◌≡◌, ◌++◌, IfOk, OnOk, if◌then◌else◌};
ghost use Rattle.control_actions.specs.Owned.{is_owning};
ghost use Rattle.ledger_calls.specs.Calls.{alias_position, alias_target};
ghost use Rattle.ledger_entries.specs.Entries.{leak_entries, owner_entries, reset_entries};
ghost use Rattle.ledger_obligations.specs.Obligations.{displaced, holder_roots, moved_in, reset_roots, stored_owning};
ghost use Rattle.ledger_state.specs.declared.entry.LeakWord.TheVariants as words;
ghost use Rattle.ledger_state.specs.Heaps.{put_field};
ghost use Rattle.ledger_steps.specs.InnerSteps.{displaced_entries, displaced_lines, heap_stored, is_bound, parameter, root_of_number, store_entries, store_lines, stored_by};
ghost use Rattle.must_call_sets.specs.Bodies.{constructs};
ghost use Rattle.program_model.specs.Lookups.{method_at};

use crate::store::Store;
use ledger_calls::is_alias;
use ledger_entries::{leak_entries, owner_entries, reset_entries};
use ledger_obligations::{OwningStore, displace, holder_roots, move_in, reset_roots};
use ledger_state::{Entry, Heap, LeakWord, Locals, Value, same_root};
use must_call_sets::is_constructor_kind;
use program_model::{FieldId, MethodId, Program};
use rlc_base::{NoMemory, Pos};
use std::alloc::Global;

// The value of the parameter at a position; that at 0 is `this`.
#[tactic(auto, using(crate::proofs::ParameterLaws::parameter_behind))]
fn parameter(locals: &Locals, position: u64) -> Value
    ensures { result ≡ parameter locals.now position }
{
    if position == 0 {
        locals.this
    } else {
        locals.variable(position - 1)
    }
}

fn alias_position(p: &Program, method: MethodId) -> Option<u32>
    ensures { result ≡ alias_position (method_at p.now method) }
{
    match p.method(method) {
        None => None,
        Some(m) => m.sig.alias,
    }
}

// The root of the argument that the method's result is an alias of.
fn aliased_root(p: &Program, heap: &Heap, method: MethodId, locals: &Locals) -> Option<u64>
    ensures { result ≡ root_of_number heap.now (alias_target (parameter locals.now) (method_at p.now method)) }
{
    match alias_position(p, method) {
        None => None,
        Some(position) => match parameter(locals, u64::from(position)).object() {
            None => None,
            Some(number) => Some(heap.root(number)),
        },
    }
}

/// Whether the method is a constructor.
pub(crate) fn constructs(p: &Program, method: MethodId) -> bool
    ensures { result ≡ constructs (method_at p.now method) }
{
    match p.method(method) {
        None => false,
        Some(m) => is_constructor_kind(m.kind),
    }
}

// Whether the value has the root of the aliased argument of the alias constructor that runs.
fn is_bound(p: &Program, heap: &Heap, method: MethodId, locals: &Locals, value: Value) -> bool
    ensures { result ≡ is_bound heap.now (method_at p.now method) locals.now value }
{
    constructs(p, method)
        && is_alias(p, method)
        && same_root(heap.root_of(value), aliased_root(p, heap, method, locals))
}

fn is_owning(p: &Program, field: FieldId) -> bool
    ensures { result ≡ is_owning p.now field }
{
    match p.field(field) {
        None => false,
        Some(found) => found.owning,
    }
}

// The heap when the old content of the field is given up, where the field owned it.
fn displaced(alloc: Global, p: &Program, s: OwningStore, heap: &Heap) -> Result<Heap, NoMemory>
    ensures { IfOk result (λ h. h ≡ displaced p.now heap.now s.holder s.field s.value) }
{
    let mut after = heap.copy(alloc)?;
    displace(p, s, &mut after);
    Ok(after)
}

// The heap when the value has then moved to the field.
fn moved_in(
    alloc: Global,
    p: &Program,
    s: OwningStore,
    heap: &Heap,
    released: &Heap,
) -> Result<Heap, NoMemory>
    requires { released.now ≡ displaced p.now heap.now s.holder s.field s.value }
    ensures { IfOk result (λ h. h ≡ moved_in p.now heap.now s.holder s.field s.bound s.value) }
{
    let mut after = released.copy(alloc)?;
    move_in(p, s, heap, &mut after);
    Ok(after)
}

// The heap when these roots are then reset and the field has taken the value.
fn put_in(
    alloc: Global,
    p: &Program,
    s: OwningStore,
    roots: &[u64],
    moved: &Heap,
) -> Result<Heap, NoMemory>
    ensures { IfOk result (λ h. h ≡ put_field s.holder s.field s.value (reset_roots p.now roots.now moved.now)) }
{
    let mut after = moved.copy(alloc)?;
    reset_roots(alloc, p, roots, &mut after)?;
    after.put_field(s.holder, s.field, s.value)?;
    Ok(after)
}

// A store into an owning field. Puts its lines and its leaks at the ends of the lists.
fn store_owning(
    alloc: Global,
    p: &Program,
    pos: Pos,
    s: OwningStore,
    heap: &Heap,
    lines: &mut Vec<Entry>,
    leaks: &mut Vec<Entry>,
) -> Result<Heap, NoMemory>
    ensures heap { IfOk result (λ h. h ≡ stored_owning p.now heap.now s.holder s.field s.bound s.value) }
    ensures lines { OnOk result (lines.new.items ≡ lines.old.items ++ (reset_entries p.now pos (holder_roots p.now heap.now s.holder s.field s.bound s.value) (moved_in p.now heap.now s.holder s.field s.bound s.value) ++ owner_entries p.now pos (displaced p.now heap.now s.holder s.field s.value) (moved_in p.now heap.now s.holder s.field s.bound s.value))) }
    ensures leaks { OnOk result (leaks.new.items ≡ leaks.old.items ++ leak_entries p.now words.Overwritten pos heap.now (displaced p.now heap.now s.holder s.field s.value)) }
{
    let released = displaced(alloc, p, s, heap)?;
    let moved = moved_in(alloc, p, s, heap, &released)?;
    let roots = holder_roots(alloc, p, s, heap, &moved)?;
    leak_entries(p, LeakWord::Overwritten, pos, heap, &released, leaks)?;
    reset_entries(p, pos, &roots, &moved, lines)?;
    owner_entries(p, pos, &released, &moved, lines)?;
    put_in(alloc, p, s, &roots, &moved)
}

// A store into a field that owns nothing.
fn store_plain(alloc: Global, s: Store, heap: &Heap) -> Result<Heap, NoMemory>
    ensures { IfOk result (λ h. h ≡ put_field s.holder s.field s.value heap.now) }
{
    let mut after = heap.copy(alloc)?;
    after.put_field(s.holder, s.field, s.value)?;
    Ok(after)
}

// A store in a frame of the method.
fn store_by(
    alloc: Global,
    p: &Program,
    pos: Pos,
    method: MethodId,
    locals: &Locals,
    s: Store,
    heap: &Heap,
    lines: &mut Vec<Entry>,
    leaks: &mut Vec<Entry>,
) -> Result<Heap, NoMemory>
    ensures heap { IfOk result (λ h. h ≡ stored_by p.now (method_at p.now method) locals.now s heap.now) }
    ensures lines { OnOk result (lines.new.items ≡ lines.old.items ++ store_lines p.now pos (method_at p.now method) locals.now s heap.now) }
    ensures leaks { OnOk result (leaks.new.items ≡ leaks.old.items ++ displaced_lines p.now pos s heap.now) }
{
    if is_owning(p, s.field) {
        let owning = OwningStore {
            holder: s.holder,
            field: s.field,
            bound: is_bound(p, heap, method, locals, s.value),
            value: s.value,
        };
        store_owning(alloc, p, pos, owning, heap, lines, leaks)
    } else {
        store_plain(alloc, s, heap)
    }
}

/// The heap after the store of a step in a frame of the method, where there is one. Puts its lines and its leaks at the ends of
/// the lists.
pub(crate) fn heap_stored(
    alloc: Global,
    p: &Program,
    pos: Pos,
    method: MethodId,
    locals: &Locals,
    store: Option<Store>,
    heap: &Heap,
    lines: &mut Vec<Entry>,
    leaks: &mut Vec<Entry>,
) -> Result<Heap, NoMemory>
    ensures heap { IfOk result (λ h. h ≡ heap_stored p.now (method_at p.now method) locals.now store heap.now) }
    ensures lines { OnOk result (lines.new.items ≡ lines.old.items ++ store_entries p.now pos (method_at p.now method) locals.now store heap.now) }
    ensures leaks { OnOk result (leaks.new.items ≡ leaks.old.items ++ displaced_entries p.now pos store heap.now) }
{
    match store {
        None => heap.copy(alloc),
        Some(s) => store_by(alloc, p, pos, method, locals, s, heap, lines, leaks),
    }
}
