//! The values of a frame. Each law is the contract of a function that does nothing.

ghost use Rattle.std.specs.Prelude.{◌≡◌, ℕ, ◌≤◌, true, Some, None, length};
ghost use Rattle.program_model.specs.declared.kinds.MethodId.{MethodId};
ghost use Rattle.program_model.specs.declared.program.Program.{Program};
ghost use Rattle.program_model.specs.declared.tree.Body.{Body};
ghost use Rattle.control_actions.specs.declared.action.Action.{Action};
ghost use Rattle.control_actions.specs.declared.action.Edge.{Edge};
ghost use Rattle.control_actions.specs.declared.place.Place.{Place};
ghost use Rattle.java_control.specs.PlaceNumbers.{IsSmall};
ghost use Rattle.java_control.specs.Sources.{source};
ghost use Rattle.step_laws.specs.Facts.{PlaceSet};
ghost use Rattle.ledger_state.specs.Contents.{HeapContents};
ghost use Rattle.ledger_state.specs.Heaps.{root_of};
ghost use Rattle.ledger_state.specs.Locals.{held};
ghost use Rattle.ledger_state.specs.declared.locals.Locals.{Locals};
ghost use Rattle.ledger_state.specs.declared.value.Value.{Value};
ghost use Rattle.ledger_frames.specs.Obligations.{holds};
ghost use Rattle.ledger_frames.specs.Places.{place_value};
ghost use Rattle.ledger_frames.specs.Choosing.{method_body};
ghost use Rattle.ledger_frames.specs.Frames.{locals_after, made_place};
ghost use Rattle.place_laws.specs.Places.{HasTarget, is_local, takes_alias};

/// A variable or temp has after a step what its source had before, where that is an object. `h` is the heap before the step, and
/// the places of the frame are read in any heap `k` after it.
pub fn value_comes_from_source()
    ensures { (p : Program) (h k : HeapContents) (m : MethodId) (x : Body) (l : Locals) (a : Action) (e : Edge) (v : Value) (q z : Place) (o : ℕ)
        → method_body p m ≡ Some x → IsSmall q → is_local q ≡ true → HasTarget l a → source p x a e q ≡ Some z → root_of h (place_value p h m l z) ≡ Some o
        → place_value p k m (locals_after p h m l a e v) q ≡ place_value p h m l z }
{}

/// Where the step puts what it makes, that stands, unless the place has a source.
pub fn made_value_stands()
    ensures { (p : Program) (h k : HeapContents) (m : MethodId) (x : Body) (l : Locals) (a : Action) (e : Edge) (v : Value) (q : Place)
        → method_body p m ≡ Some x → IsSmall q → is_local q ≡ true → HasTarget l a → made_place a ≡ Some q → source p x a e q ≡ None
        → place_value p k m (locals_after p h m l a e v) q ≡ v }
{}

/// Where a call puts an alias, what it gives stands.
pub fn alias_stands()
    ensures { (p : Program) (h k : HeapContents) (m : MethodId) (x : Body) (l : Locals) (a : Action) (e : Edge) (v : Value) (held : PlaceSet) (q : Place)
        → method_body p m ≡ Some x → IsSmall q → HasTarget l a → takes_alias p a e held q ≡ true
        → place_value p k m (locals_after p h m l a e v) q ≡ v }
{}

/// A step adds no variable and takes none, where they are no more than sets of places have room for.
pub fn variables_stay()
    ensures { (p : Program) (h : HeapContents) (m : MethodId) (l : Locals) (a : Action) (e : Edge) (v : Value) → length l.variables ≤ 160
        → length (locals_after p h m l a e v).variables ≡ length l.variables }
{}

/// An object in a variable or a temp is one that the frame holds.
pub fn held_place_counts()
    ensures { (p : Program) (h : HeapContents) (m : MethodId) (l : Locals) (q : Place) (o : ℕ) → is_local q ≡ true → root_of h (place_value p h m l q) ≡ Some o
        → holds h (held l) o ≡ true }
{}
