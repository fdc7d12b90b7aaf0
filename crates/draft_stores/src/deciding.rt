//! What a store into an owning field does.

ghost use Rattle.std.specs.Prelude.{◌≡◌, ◌&&◌};
ghost use Rattle.control_actions.specs.Owned.{is_owning};
ghost use Rattle.ledger_calls.specs.Calls.{alias_position, alias_target};
ghost use Rattle.ledger_obligations.specs.Obligations.{displaces, is_field, moves_in, owner_of_root, resets_holder, type_of_field};
ghost use Rattle.ledger_state.specs.Fields.{field_of};
ghost use Rattle.ledger_state.specs.Heaps.{root_of};
ghost use Rattle.ledger_steps.specs.InnerSteps.{is_bound, parameter, root_of_number};
ghost use Rattle.must_call_sets.specs.Bodies.{constructs};
ghost use Rattle.program_model.specs.Lookups.{field_at, method_at};

use ledger_calls::is_alias;
use ledger_obligations::{OwningStore, is_finished, is_unmet_root, may_move_root, owner_of};
use ledger_state::{Heap, Locals, Owner, Value, field_of, same_root};
use must_call_sets::is_constructor_kind;
use program_model::{FieldId, MethodId, Program, VType};

/// What a store does: whether the root of the old content is given up, whether that of the value moves, and whether the holder is reset.
#[derive(Clone, Copy)]
pub(crate) struct Decision {
    pub(crate) released: bool,
    pub(crate) old: Option<u64>,
    pub(crate) moved: bool,
    pub(crate) root: Option<u64>,
    pub(crate) reset: bool,
}

// The value of the parameter at a position; that at 0 is `this`.
#[tactic(auto, using(ledger_steps::proofs::ParameterLaws::parameter_behind))]
fn parameter(locals: &Locals, position: u64) -> Value
    ensures { result ≡ parameter locals.now position }
{
    if position == 0 {
        locals.this
    } else {
        locals.variable(position - 1)
    }
}

fn alias_position(p: &Program, method: MethodId) -> Option<u32>
    ensures { result ≡ alias_position (method_at p.now method) }
{
    match p.method(method) {
        None => None,
        Some(m) => m.sig.alias,
    }
}

// The root of the argument that the method's result is an alias of.
fn aliased_root(p: &Program, heap: &Heap, method: MethodId, locals: &Locals) -> Option<u64>
    ensures { result ≡ root_of_number heap.now (alias_target (parameter locals.now) (method_at p.now method)) }
{
    match alias_position(p, method) {
        None => None,
        Some(position) => match parameter(locals, u64::from(position)).object() {
            None => None,
            Some(number) => Some(heap.root(number)),
        },
    }
}

fn constructs(p: &Program, method: MethodId) -> bool
    ensures { result ≡ constructs (method_at p.now method) }
{
    match p.method(method) {
        None => false,
        Some(m) => is_constructor_kind(m.kind),
    }
}

/// Whether the value has the root of the aliased argument of the alias constructor that runs.
pub(crate) fn is_bound(
    p: &Program,
    heap: &Heap,
    method: MethodId,
    locals: &Locals,
    value: Value,
) -> bool
    ensures { result ≡ is_bound heap.now (method_at p.now method) locals.now value }
{
    constructs(p, method)
        && is_alias(p, method)
        && same_root(heap.root_of(value), aliased_root(p, heap, method, locals))
}

/// Whether the field owns what it holds.
pub(crate) fn is_owning(p: &Program, field: FieldId) -> bool
    ensures { result ≡ is_owning p.now field }
{
    match p.field(field) {
        None => false,
        Some(found) => found.owning,
    }
}

fn type_of_field(p: &Program, field: FieldId) -> VType
    ensures { result ≡ type_of_field (field_at p.now field) }
{
    match p.field(field) {
        None => VType::NullType,
        Some(found) => found.vtype,
    }
}

fn is_field(owner: Owner, holder: u64, field: FieldId) -> bool
    ensures { result ≡ is_field owner holder field }
{
    match owner {
        Owner::Field(number, found) => number == holder && found.0 == field.0,
        Owner::Frame(_) | Owner::Library | Owner::Released | Owner::Lost | Owner::Unowned => false,
    }
}

fn owner_of_root(heap: &Heap, root: Option<u64>) -> Owner
    ensures { result ≡ owner_of_root heap.now root }
{
    match root {
        None => Owner::Unowned,
        Some(number) => owner_of(heap, number),
    }
}

// The old content has another root than the new value, and this field owns it.
fn displaces(heap: &Heap, s: OwningStore, old: Value) -> bool
    ensures { result ≡ displaces heap.now s.holder s.field old s.value }
{
    let root = heap.root_of(old);
    is_field(owner_of_root(heap, root), s.holder, s.field)
        && !same_root(root, heap.root_of(s.value))
}

// The value moves with the store, unless it is `bound` to stay.
fn moves_in(p: &Program, heap: &Heap, s: OwningStore) -> bool
    ensures { result ≡ moves_in p.now heap.now s.field s.bound s.value }
{
    !s.bound && may_move_root(p, heap, type_of_field(p, s.field), heap.root_of(s.value))
}

// A moved value that is unmet and has another root than the old content has a finished holder reset.
fn resets_holder(p: &Program, heap: &Heap, s: OwningStore, old: Value) -> bool
    ensures { result ≡ resets_holder p.now heap.now s.holder s.field s.bound old s.value }
{
    let root = heap.root_of(s.value);
    moves_in(p, heap, s)
        && is_unmet_root(heap, root)
        && !same_root(heap.root_of(old), root)
        && is_finished(heap, s.holder)
}

/// What the store does.
pub(crate) fn decide(p: &Program, heap: &Heap, s: OwningStore) -> Decision
    ensures released { result.released ≡ displaces heap.now s.holder s.field (field_of p.now heap.now (Value.Object s.holder) s.field) s.value }
    ensures old { result.old ≡ root_of heap.now (field_of p.now heap.now (Value.Object s.holder) s.field) }
    ensures moved { result.moved ≡ moves_in p.now heap.now s.field s.bound s.value }
    ensures root { result.root ≡ root_of heap.now s.value }
    ensures reset { result.reset ≡ resets_holder p.now heap.now s.holder s.field s.bound (field_of p.now heap.now (Value.Object s.holder) s.field) s.value }
{
    let content = field_of(p, heap, Value::Object(s.holder), s.field);
    Decision {
        released: displaces(heap, s, content),
        old: heap.root_of(content),
        moved: moves_in(p, heap, s),
        root: heap.root_of(s.value),
        reset: resets_holder(p, heap, s, content),
    }
}
