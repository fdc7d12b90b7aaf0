//! Which lines of the ledger are no leaks. Each law is the contract of a function that does nothing.

ghost use Rattle.std.specs.Prelude.{◌≡◌, ℕ, true, false, Option, Some, List, []};
ghost use Rattle.std.specs.List.{list_any};
ghost use Rattle.rlc_base.specs.declared.place.Pos.{Pos};
ghost use Rattle.program_model.specs.declared.program.Program.{Program};
ghost use Rattle.ledger_state.specs.Contents.{HeapContents};
ghost use Rattle.ledger_state.specs.Heaps.{object_at};
ghost use Rattle.ledger_state.specs.declared.entry.Entry.{Entry};
ghost use Rattle.ledger_state.specs.declared.entry.LeakWord.{LeakWord};
ghost use Rattle.ledger_state.specs.declared.object.Object.{Object};
ghost use Rattle.ledger_state.specs.declared.value.Value.{Value};
ghost use Rattle.ledger_obligations.specs.Obligations.{end_frame, end_holder, is_frame, is_held_by, is_unmet, lose};
ghost use Rattle.ledger_steps.specs.Entries.{birth_entries, called_entries, leak_entries, owner_entries, reset_entries};
ghost use Rattle.ledger_steps.specs.Effects.{left};
ghost use Rattle.ledger_state.specs.Leaks.{is_leak};

/// A line of an owner is no leak.
pub fn owner_lines_leak_nothing()
    ensures { (p : Program) (pos : Pos) (h k : HeapContents) → list_any is_leak (owner_entries p pos h k) ≡ false }
{}

/// A line of a name that was called is no leak.
pub fn called_lines_leak_nothing()
    ensures { (p : Program) (pos : Pos) (h k : HeapContents) → list_any is_leak (called_entries p pos h k) ≡ false }
{}

/// A line of a reset is no leak.
pub fn reset_lines_leak_nothing()
    ensures { (p : Program) (pos : Pos) (roots : List ℕ) (h : HeapContents) → list_any is_leak (reset_entries p pos roots h) ≡ false }
{}

/// A line of a birth is no leak.
pub fn birth_lines_leak_nothing()
    ensures { (p : Program) (pos : Pos) (h k : HeapContents) → list_any is_leak (birth_entries p pos h k) ≡ false }
{}

/// A step that loses nothing has no leak but those of its lines.
pub fn step_leaks_nothing()
    ensures lines { (p : Program) (pos : Pos) (held : List (List Value)) (lines : List Entry) (h : HeapContents)
        → lose held h ≡ h → list_any is_leak lines ≡ false → list_any is_leak (left p pos held lines [] h).lines ≡ false }
    ensures unchanged { (p : Program) (word : LeakWord) (pos : Pos) (h : HeapContents) → leak_entries p word pos h h ≡ [] }
{}

/// A frame that owns nothing unmet leaks nothing at its end.
pub fn end_of_frame_leaks_nothing()
    ensures { (p : Program) (word : LeakWord) (pos : Pos) (j : ℕ) (h : HeapContents)
        → ((n : ℕ) (x : Object) → object_at h n ≡ Some x → is_frame x.owner j ≡ true → is_unmet x ≡ false)
        → leak_entries p word pos h (end_frame j h) ≡ [] }
{}

/// An object leaks nothing at its end where no field owns anything unmet.
pub fn end_of_holder_leaks_nothing()
    ensures { (p : Program) (word : LeakWord) (pos : Pos) (w : Option ℕ) (h : HeapContents)
        → ((n : ℕ) (x : Object) (k : ℕ) → object_at h n ≡ Some x → is_held_by x.owner k ≡ true → is_unmet x ≡ false)
        → leak_entries p word pos h (end_holder w h) ≡ [] }
{}
