//! Notes of calls. Each law is the contract of a function that does nothing.

ghost use Rattle.std.specs.Prelude.{◌≡◌, ◌⊎◌, ℕ, ◌<◌, true, false, Some, List};
ghost use Rattle.std.specs.List.{All};
ghost use Rattle.std.specs.FinSet as set;
ghost use Rattle.rlc_base.specs.declared.name_id.NameId.{NameId};
ghost use Rattle.program_model.specs.declared.kinds.FieldId.{FieldId};
ghost use Rattle.program_model.specs.declared.program.Program.{Program};
ghost use Rattle.ledger_obligations.specs.Signatures.{is_of_field, promised_names};
ghost use Rattle.ledger_state.specs.Contents.{HeapContents};
ghost use Rattle.ledger_state.specs.Fields.{field_value};
ghost use Rattle.ledger_state.specs.Heaps.{object_at};
ghost use Rattle.ledger_state.specs.declared.object.Object.{Object};
ghost use Rattle.ledger_state.specs.declared.value.Value.TheVariants as values;
ghost use Rattle.ledger_obligations.specs.declared.note.Note.{Note};
ghost use Rattle.ledger_obligations.specs.Obligations.{all_notes, follows, has_note, name_of, note, noted, noted_object, own_promises};
ghost use Rattle.heap_laws.specs.Heaps.{Evolves, GoesOn, HasSmallName};
ghost use Rattle.heap_laws.specs.Leading.{Leads, is_passed_on};

/// Notes add names to what was called on an object, and change nothing else.
pub fn notes_add_names()
    ensures object { (notes : List Note) (k : ℕ) (x : Object) → GoesOn x (noted_object notes k x) }
    ensures owner { (notes : List Note) (k : ℕ) (x : Object) → (noted_object notes k x).owner ≡ x.owner }
    ensures heap { (p : Program) (notes : List Note) (h : HeapContents) → Evolves h (noted p notes h) }
{}

/// The names of the notes are among them. The table of names has 128 names at most.
pub fn noted_names_stand()
    ensures { (p : Program) (notes : List Note) (h : HeapContents) (a : Note) (x : Object) → has_note notes a ≡ true → a.name.0 < 128
        → set.contains (noted_object (all_notes p h notes) a.object x).called a.name.0 ≡ true }
{}

/// What follows from a note that stands stands too: the turns are as many as there are notes.
pub fn following_notes_stand()
    ensures { (p : Program) (notes : List Note) (h : HeapContents) (a b : Note) → All HasSmallName notes → has_note (all_notes p h notes) a ≡ true → has_note (follows p h a) b ≡ true
        → has_note (all_notes p h notes) b ≡ true }
{}

/// A name that was called on an object after the notes was called before, or is noted: it is one of the first notes, or it is kept.
pub fn called_names_are_noted()
    ensures { (p : Program) (notes : List Note) (h : HeapContents) (k i : ℕ) (x : Object) → set.contains (noted_object (all_notes p h notes) k x).called i ≡ true
        → (set.contains x.called i ≡ true) ⊎ ((has_note notes (note false k (name_of i)) ≡ true) ⊎ (has_note (all_notes p h notes) (note true k (name_of i)) ≡ true)) }
{}

/// A name that is noted on an object, and goes on from it, was called on the object to which its links lead.
pub fn noted_names_reach_roots()
    ensures { (p : Program) (notes : List Note) (h : HeapContents) (a : Note) (r : ℕ) (x y : Object) → All HasSmallName notes → has_note notes a ≡ true → object_at h a.object ≡ Some x
        → is_passed_on p a x ≡ true → Leads p h a.object r → object_at (noted p notes h) r ≡ Some y → set.contains y.called a.name.0 ≡ true }
{}

/// Where a name is kept on an object, all that the object's own method of that name promises on a field was called on the object to which
/// the links of what the field holds lead.
pub fn kept_names_reach_contents()
    ensures { (p : Program) (notes : List Note) (h : HeapContents) (w v o i : ℕ) (n : NameId) (x y : Object) (f : FieldId) → All HasSmallName notes
        → has_note (all_notes p h notes) (note true w n) ≡ true → object_at h w ≡ Some x
        → set.contains (promised_names (λ t. is_of_field t f) (own_promises p x.class n)) i ≡ true → i < 128
        → field_value p h w f ≡ values.Object v → Leads p h v o → object_at (noted p notes h) o ≡ Some y → set.contains y.called i ≡ true }
{}
