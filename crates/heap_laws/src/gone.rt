//! The end of a frame that may give up contents of owning fields. Each law is the contract of a function that does nothing.

ghost use Rattle.std.specs.Prelude.{◌≡◌, ◌⊎◌, ℕ, ◌+◌, true, Option, Some, List, []};
ghost use Rattle.program_model.specs.declared.kinds.ClassId.{ClassId};
ghost use Rattle.program_model.specs.declared.program.Method.{Method};
ghost use Rattle.program_model.specs.declared.program.Program.{Program};
ghost use Rattle.rlc_base.specs.declared.place.Pos.{Pos};
ghost use Rattle.ledger_obligations.specs.Bodies.{constructs};
ghost use Rattle.ledger_state.specs.Contents.{HeapContents};
ghost use Rattle.ledger_state.specs.Heaps.{object_at};
ghost use Rattle.ledger_state.specs.Values.{number_of};
ghost use Rattle.ledger_state.specs.declared.object.Object.{Object};
ghost use Rattle.ledger_state.specs.declared.value.Value.{Value};
ghost use Rattle.ledger_obligations.specs.Obligations.{is_frame, is_held_by, is_unmet};
ghost use Rattle.ledger_steps.specs.Ends.{frame_end_leaks, frame_gone, result_moved};

/// Where the frame owns nothing unmet when its result has moved, and a constructor that ends by an exception holds nothing unmet,
/// nothing unmet is given up.
pub fn nothing_unmet_goes()
    ensures { (p : Program) (i : ℕ) (self : Value) (runs : Option Method) (v : Value) (e : Option ClassId) (h : HeapContents)
        → ((n : ℕ) (x : Object) → object_at (result_moved p i runs v e h) n ≡ Some x → is_unmet x ≡ true → is_frame x.owner (i + 1) ≡ true → ⊥)
        → ((n w : ℕ) (c : ClassId) (x : Object) → e ≡ Some c → constructs runs ≡ true → number_of self ≡ Some w → object_at (result_moved p i runs v e h) n ≡ Some x
        → is_unmet x ≡ true → is_held_by x.owner w ≡ true → ⊥)
        → (n : ℕ) (y : Object) → object_at (frame_gone p i self runs v e h) n ≡ Some y → is_unmet y ≡ true → object_at (result_moved p i runs v e h) n ≡ Some y }
{}

/// Such an end leaks nothing.
pub fn contents_end_met()
    ensures { (p : Program) (i : ℕ) (self : Value) (runs : Option Method) (v : Value) (e : Option ClassId) (h : HeapContents)
        → ((n : ℕ) (x : Object) → object_at (result_moved p i runs v e h) n ≡ Some x → is_unmet x ≡ true → is_frame x.owner (i + 1) ≡ true → ⊥)
        → ((n w : ℕ) (c : ClassId) (x : Object) → e ≡ Some c → constructs runs ≡ true → number_of self ≡ Some w → object_at (result_moved p i runs v e h) n ≡ Some x
        → is_unmet x ≡ true → is_held_by x.owner w ≡ true → ⊥)
        → (pos : Pos) → frame_end_leaks p pos i self runs v e h ≡ [] }
{}
