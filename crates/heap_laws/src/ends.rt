//! What a frame or an object gives up at its end. Each law is the contract of a function that does nothing.

ghost use Rattle.std.specs.Prelude.{◌≡◌, ℕ, true, Some};
ghost use Rattle.ledger_state.specs.Contents.{HeapContents};
ghost use Rattle.ledger_state.specs.Heaps.{object_at};
ghost use Rattle.ledger_state.specs.declared.object.Object.{Object};
ghost use Rattle.ledger_obligations.specs.Obligations.{end_frame, end_holder, is_frame, is_held_by};
ghost use Rattle.heap_laws.specs.Heaps.{IsKeptOr};

/// When a frame has ended, each object is as it was, or one that the frame owned and gave up.
pub fn ended_frame_gives_up()
    ensures { (j : ℕ) (h : HeapContents) (n : ℕ) (y : Object) → object_at (end_frame j h) n ≡ Some y
        → (x : Object) × (object_at h n ≡ Some x) × IsKeptOr (is_frame x.owner j) x y }
{}

/// When an object has ended, each object is as it was, or one that a field of the ended one owned.
pub fn ended_holder_gives_up()
    ensures { (w : ℕ) (h : HeapContents) (n : ℕ) (y : Object) → object_at (end_holder (Some w) h) n ≡ Some y
        → (x : Object) × (object_at h n ≡ Some x) × IsKeptOr (is_held_by x.owner w) x y }
{}
