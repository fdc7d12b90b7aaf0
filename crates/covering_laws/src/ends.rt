//! The end of a frame. Each law is the contract of a function that does nothing.

ghost use Rattle.std.specs.Prelude.{◌≡◌, ◌⊎◌, ℕ, Bool, List, true, false, None, Some, slice_get};
ghost use Rattle.std.specs.FinSet as set;
ghost use Rattle.program_model.specs.declared.kinds.FieldId.{FieldId};
ghost use Rattle.program_model.specs.declared.program.Method.{Method};
ghost use Rattle.program_model.specs.declared.program.Program.{Program};
ghost use Rattle.program_model.specs.Lookups.{method_at};
ghost use Rattle.ledger_obligations.specs.Bodies.{alias_position, constructs, has_field_place, is_finalizer};
ghost use Rattle.java_control.specs.Control.{Step};
ghost use Rattle.control_actions.specs.declared.action.Action.TheVariants as actions;
ghost use Rattle.control_actions.specs.declared.action.Completion.{Completion};
ghost use Rattle.value_laws.specs.Accept.{Accept};
ghost use Rattle.value_laws.specs.Ends.{is_throw};
ghost use Rattle.ledger_state.specs.Contents.{HeapContents};
ghost use Rattle.ledger_state.specs.declared.object.Object.{Object};
ghost use Rattle.ledger_obligations.specs.Obligations.{is_unmet};
ghost use Rattle.value_laws.specs.Configuration.{Frame};
ghost use Rattle.value_laws.specs.Choosing.{frame_steps};
ghost use Rattle.value_laws.specs.Agreement.{Stands};
ghost use Rattle.value_laws.specs.FieldContents.{promised_on};
ghost use Rattle.value_laws.specs.PlaceFacts.{IsCovered, gives_none, renews_none};
ghost use Rattle.covering_laws.specs.Covering.{HoldsHeavy, IsCountedOn, KeepsFieldsOfThis};

/// As a frame ends, all that its method promises on an owning field of its class was called on what the field holds, where that is finished: it was old
/// when the frame began, the call that began it spares it, and nobody has given it up; and the frame answers for the fields of `this`, or nothing is stored into them while it runs. By an exception it ends so where the method is a must-call method.
pub fn promises_are_kept_at_end()
    ensures { (p : Program) → Accept p → (h : HeapContents) (frs : List Frame) (fr : Frame) → (st : Stands p fr) → (old : ℕ → Bool) → IsCovered p h gives_none renews_none old frs fr
        → (i : ℕ) (s : Step) (q : Completion) (m : Method) (f : FieldId) (w o : ℕ) (x : Object) → slice_get (frame_steps p fr) i ≡ Some s → s.action ≡ actions.End q
        → method_at p fr.method ≡ Some m → constructs (method_at p fr.method) ≡ false → has_field_place p st.number f ≡ true → (is_throw q ≡ false) ⊎ (is_finalizer p st.number ≡ true)
        → HoldsHeavy p h fr w f o x → IsCountedOn p h old frs fr o x → KeepsFieldsOfThis p frs fr → x.finished ≡ true → set.is_subset (promised_on f m) x.called ≡ true }
{}

/// A constructor that ends by an exception owns nothing in its fields that is unmet.
pub fn contents_are_met_at_throw()
    ensures { (p : Program) → Accept p → (h : HeapContents) (frs : List Frame) (fr : Frame) → (st : Stands p fr) → (old : ℕ → Bool) → IsCovered p h gives_none renews_none old frs fr
        → (i : ℕ) (s : Step) (q : Completion) (f : FieldId) (w o : ℕ) (x : Object) → slice_get (frame_steps p fr) i ≡ Some s → s.action ≡ actions.End q
        → alias_position p st.number ≡ None → is_throw q ≡ true → constructs (method_at p fr.method) ≡ true → has_field_place p st.number f ≡ true → HoldsHeavy p h fr w f o x → is_unmet x ≡ false }
{}
