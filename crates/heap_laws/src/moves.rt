//! Arguments that move at the start of a call. Each law is the contract of a function that does nothing.

ghost use Rattle.std.specs.Prelude.{◌≡◌, ◌⊎◌, ℕ, ◌+◌, true, Some, List, slice_get};
ghost use Rattle.program_model.specs.declared.kinds.VType.{VType};
ghost use Rattle.program_model.specs.declared.program.ParamSig.{ParamSig};
ghost use Rattle.program_model.specs.declared.program.Program.{Program};
ghost use Rattle.ledger_state.specs.Contents.{HeapContents};
ghost use Rattle.ledger_state.specs.Heaps.{next_number, object_at, root_of};
ghost use Rattle.ledger_state.specs.declared.entry.Owner.{Owner};
ghost use Rattle.ledger_state.specs.declared.object.Object.{Object};
ghost use Rattle.ledger_state.specs.declared.value.Value.{Value};
ghost use Rattle.ledger_obligations.specs.Obligations.{may_move, move};
ghost use Rattle.ledger_steps.specs.LedgerCallsCalls.{move_params};
ghost use Rattle.heap_laws.specs.Heaps.{Evolves, IsGiven, IsMovedFrom, IsOlder};

/// Each object goes on, with its owner or the new one.
pub fn moved_arguments_are_older()
    ensures older { (p : Program) (o : Owner) (arguments : ℕ → Value) (k : ℕ) (params : List ParamSig) (h : HeapContents) (n : ℕ) (y : Object)
        → object_at (move_params p o arguments k params h) n ≡ Some y → IsOlder h n y o }
    ensures evolves { (p : Program) (o : Owner) (arguments : ℕ → Value) (k : ℕ) (params : List ParamSig) (h : HeapContents) → Evolves h (move_params p o arguments k params h) }
{}

/// No object is made.
pub fn moves_make_nothing()
    ensures { (p : Program) (o : Owner) (arguments : ℕ → Value) (k : ℕ) (params : List ParamSig) (h : HeapContents)
        → next_number (move_params p o arguments k params h) ≡ next_number h }
{}

/// The root of an owning argument that may move has the new owner: also where several parameters take it.
pub fn given_arguments_are_owned()
    ensures { (p : Program) (o : Owner) (arguments : ℕ → Value) (k i : ℕ) (params : List ParamSig) (q : ParamSig) (h : HeapContents) (n : ℕ) (x : Object)
        → slice_get params i ≡ Some q → q.owning ≡ true → root_of h (arguments (k + i)) ≡ Some n → object_at h n ≡ Some x → may_move p q.vtype x ≡ true
        → (y : Object) × (object_at (move_params p o arguments k params h) n ≡ Some y) × (y.owner ≡ o) }
{}

/// An object whose owner changes is the root of the argument of an owning parameter, to which it may move.
pub fn moved_arguments_are_given()
    ensures { (p : Program) (o : Owner) (arguments : ℕ → Value) (k : ℕ) (params : List ParamSig) (h : HeapContents) (n : ℕ) (x y : Object)
        → object_at h n ≡ Some x → object_at (move_params p o arguments k params h) n ≡ Some y → (y.owner ≡ x.owner) ⊎ IsGiven p arguments k params h n x }
{}

/// One value moves: no object but its root has another owner, and that one has, where it may move.
pub fn moved_value()
    ensures before { (p : Program) (t : VType) (o : Owner) (v : Value) (h : HeapContents) (n : ℕ) (y : Object) → object_at (move p t o v h) n ≡ Some y
        → (x : Object) × (object_at h n ≡ Some x) × IsMovedFrom p t o (root_of h v) n x y }
    ensures taken { (p : Program) (t : VType) (o : Owner) (v : Value) (h : HeapContents) (n : ℕ) (x y : Object) → root_of h v ≡ Some n → object_at h n ≡ Some x
        → may_move p t x ≡ true → object_at (move p t o v h) n ≡ Some y → y.owner ≡ o }
{}
