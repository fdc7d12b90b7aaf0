//! Objects by their numbers. Each law is the contract of a function that does nothing.

ghost use Rattle.std.specs.Prelude.{◌≡◌, ℕ, ◌+◌, ◌<◌, true, Some, None, List, nat_eq, if◌then◌else◌};
ghost use Rattle.std.specs.Option.{option_map};
ghost use Rattle.program_model.specs.declared.kinds.ClassId.{ClassId};
ghost use Rattle.ledger_state.specs.Contents.{HeapContents};
ghost use Rattle.ledger_state.specs.Heaps.{append, change_each, next_number, object_at, unfinished};
ghost use Rattle.ledger_state.specs.declared.object.Object.{Object};
ghost use Rattle.ledger_state.specs.declared.value.Value.{Value};
ghost use Rattle.ledger_obligations.specs.Obligations.{is_unmet, lose, owner_holds};
ghost use Rattle.heap_laws.specs.Heaps.{Evolves, KeepsLinks};

/// An object that is changed by its number.
pub fn changed_object_at()
    ensures object { (change : ℕ → Object → Object) (h : HeapContents) (k : ℕ) → object_at (change_each change h) k ≡ option_map (change k) (object_at h k) }
    ensures count { (change : ℕ → Object → Object) (h : HeapContents) → next_number (change_each change h) ≡ next_number h }
{}

/// An object that is made stands at the next number.
pub fn appended_object_at()
    ensures object { (h : HeapContents) (c : ClassId) (k : ℕ) → object_at (append h c) k ≡ (if nat_eq k (next_number h) then Some (unfinished c) else object_at h k) }
    ensures count { (h : HeapContents) (c : ClassId) → next_number (append h c) ≡ next_number h + 1 }
{}

/// Numbers of objects begin at 1 and are below the next one.
pub fn numbers_are_in_range()
    ensures { (h : HeapContents) (k : ℕ) (x : Object) → object_at h k ≡ Some x → (0 < k) × (k < next_number h) }
{}

/// A change of each object that changes none.
pub fn nothing_is_changed()
    ensures { (change : ℕ → Object → Object) (h : HeapContents) → ((k : ℕ) (x : Object) → object_at h k ≡ Some x → change k x ≡ x) → change_each change h ≡ h }
{}

/// Nothing is lost where each unmet object is one that its frame holds.
pub fn nothing_is_lost()
    ensures { (held : List (List Value)) (h : HeapContents) → ((k : ℕ) (x : Object) → object_at h k ≡ Some x → is_unmet x ≡ true → owner_holds h held x.owner k ≡ true)
        → lose held h ≡ h }
{}

/// Heaps evolve from themselves, and step by step, and links stay.
pub fn evolving_heaps()
    ensures same { (h : HeapContents) → Evolves h h }
    ensures further { (h k j : HeapContents) → Evolves h k → Evolves k j → Evolves h j }
    ensures links { (h k : HeapContents) → Evolves h k → KeepsLinks h k }
{}
