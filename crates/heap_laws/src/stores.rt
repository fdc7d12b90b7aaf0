//! Stores into owning fields. Each law is the contract of a function that does nothing.

ghost use Rattle.std.specs.Prelude.{◌≡◌, ◌⊎◌, ℕ, Bool, true, false, Some, List, []};
ghost use Rattle.std.specs.List.{list_any};
ghost use Rattle.program_model.specs.declared.kinds.FieldId.{FieldId};
ghost use Rattle.program_model.specs.declared.program.Program.{Program};
ghost use Rattle.program_model.specs.Lookups.{field_at};
ghost use Rattle.rlc_base.specs.declared.place.Pos.{Pos};
ghost use Rattle.ledger_state.specs.Contents.{HeapContents};
ghost use Rattle.ledger_state.specs.Fields.{field_of, field_value};
ghost use Rattle.ledger_state.specs.Heaps.{next_number, object_at, put_field, root_of};
ghost use Rattle.ledger_state.specs.declared.entry.LeakWord.{LeakWord};
ghost use Rattle.ledger_state.specs.declared.entry.Owner.TheVariants as owners;
ghost use Rattle.ledger_state.specs.declared.object.Object.{Object};
ghost use Rattle.ledger_state.specs.declared.value.Value.{Value};
ghost use Rattle.ledger_state.specs.declared.value.Value.TheVariants as values;
ghost use Rattle.ledger_steps.specs.Entries.{leak_entries};
ghost use Rattle.ledger_obligations.specs.Obligations.{displaced, finished_in, given_up, is_unmet, is_unmet_root, may_move, may_move_root, resets_holder, stored_owning, type_of_field};
ghost use Rattle.heap_laws.specs.Heaps.{GoesOn, HasEarlierLinks};
ghost use Rattle.heap_laws.specs.Stores.{IsDisplaced, IsStored};

/// Where the store resets no holder, each object is as it was, or the field gave it up or owns it, which it does not where an alias is bound. It goes on,
/// links lead to earlier objects still, and no object is made. What the field gives up is given up.
pub fn stored_objects()
    ensures before { (p : Program) (h : HeapContents) (w : ℕ) (f : FieldId) (bound : Bool) (v : Value) (n : ℕ) (y : Object)
        → resets_holder p h w f bound (field_of p h (values.Object w) f) v ≡ false → object_at (stored_owning p h w f bound v) n ≡ Some y
        → (x : Object) × (object_at h n ≡ Some x) × IsStored p h w f v n x y }
    ensures bound { (p : Program) (h : HeapContents) (w : ℕ) (f : FieldId) (v : Value) (n : ℕ) (y : Object) → object_at (stored_owning p h w f true v) n ≡ Some y
        → (x : Object) × (object_at h n ≡ Some x) × ((y ≡ x) ⊎ (IsDisplaced p h w f v n x × (y ≡ given_up x))) }
    ensures after { (p : Program) (h : HeapContents) (w : ℕ) (f : FieldId) (bound : Bool) (v : Value) (n : ℕ) (x : Object)
        → resets_holder p h w f bound (field_of p h (values.Object w) f) v ≡ false → object_at h n ≡ Some x
        → (y : Object) × (object_at (stored_owning p h w f bound v) n ≡ Some y) × IsStored p h w f v n x y }
    ensures given { (p : Program) (h : HeapContents) (w : ℕ) (f : FieldId) (bound : Bool) (v : Value) (n : ℕ) (x y : Object)
        → resets_holder p h w f bound (field_of p h (values.Object w) f) v ≡ false → object_at h n ≡ Some x → IsDisplaced p h w f v n x
        → object_at (stored_owning p h w f bound v) n ≡ Some y → y ≡ given_up x }
    ensures goes_on { (p : Program) (h : HeapContents) (w : ℕ) (f : FieldId) (v : Value) (n : ℕ) (x y : Object) → IsStored p h w f v n x y → GoesOn x y }
    ensures links { (p : Program) (h : HeapContents) (w : ℕ) (f : FieldId) (bound : Bool) (v : Value) → HasEarlierLinks h → resets_holder p h w f bound (field_of p h (values.Object w) f) v ≡ false
        → HasEarlierLinks (stored_owning p h w f bound v) }
    ensures count { (p : Program) (h : HeapContents) (w : ℕ) (f : FieldId) (bound : Bool) (v : Value) → next_number (stored_owning p h w f bound v) ≡ next_number h }
{}

/// A value that may move is owned by the field after the store.
pub fn owning_value_moves()
    ensures { (p : Program) (h : HeapContents) (w : ℕ) (f : FieldId) (v : Value) (n : ℕ) (x y : Object)
        → resets_holder p h w f false (field_of p h (values.Object w) f) v ≡ false → root_of h v ≡ Some n → object_at h n ≡ Some x
        → may_move p (type_of_field (field_at p f)) x ≡ true → object_at (stored_owning p h w f false v) n ≡ Some y → y.owner ≡ owners.Field w f }
{}

/// The holder is not reset where it is not finished, or where the value is met or does not move.
pub fn holder_is_not_reset()
    ensures unfinished { (p : Program) (h : HeapContents) (w : ℕ) (f : FieldId) (bound : Bool) (old v : Value) → finished_in (object_at h w) ≡ false
        → resets_holder p h w f bound old v ≡ false }
    ensures met { (p : Program) (h : HeapContents) (w : ℕ) (f : FieldId) (bound : Bool) (old v : Value) → is_unmet_root h (root_of h v) ≡ false
        → resets_holder p h w f bound old v ≡ false }
    ensures still { (p : Program) (h : HeapContents) (w : ℕ) (f : FieldId) (bound : Bool) (old v : Value) → may_move_root p h (type_of_field (field_at p f)) (root_of h v) ≡ false
        → resets_holder p h w f bound old v ≡ false }
{}

/// A store that displaces nothing unmet leaks nothing.
pub fn displaced_met_leaks_nothing()
    ensures { (p : Program) (word : LeakWord) (pos : Pos) (h : HeapContents) (w : ℕ) (f : FieldId) (v : Value)
        → ((n : ℕ) (x : Object) → object_at h n ≡ Some x → IsDisplaced p h w f v n x → is_unmet x ≡ false) → leak_entries p word pos h (displaced p h w f v) ≡ [] }
{}

/// The field holds the value after the store, and every other field holds what it held.
pub fn owning_field_holds()
    ensures here { (p : Program) (h : HeapContents) (w : ℕ) (f : FieldId) (bound : Bool) (v : Value) → field_value p (stored_owning p h w f bound v) w f ≡ v }
    ensures other { (p : Program) (h : HeapContents) (w u : ℕ) (f g : FieldId) (bound : Bool) (v : Value) → ((u ≡ w) × (g ≡ f) → ⊥)
        → field_value p (stored_owning p h w f bound v) u g ≡ field_value p h u g }
    ensures plain { (p : Program) (h : HeapContents) (w u : ℕ) (f g : FieldId) (v : Value)
        → (field_value p (put_field w f v h) u g ≡ field_value p h u g) ⊎ ((u ≡ w) × (g ≡ f) × (field_value p (put_field w f v h) u g ≡ v)) }
{}
