//! The aliased argument of a constructor. Each law is the contract of a function that does nothing.

ghost use Rattle.std.specs.Prelude.{◌≡◌, ℕ, Bool, List, suc, true, false, Some, slice_get};
ghost use Rattle.std.specs.FinSet as set;
ghost use Rattle.program_model.specs.declared.kinds.FieldId.{FieldId};
ghost use Rattle.program_model.specs.declared.program.Field.{Field};
ghost use Rattle.program_model.specs.declared.program.Method.{Method};
ghost use Rattle.program_model.specs.declared.program.Program.{Program};
ghost use Rattle.program_model.specs.Lookups.{field_at, method_at};
ghost use Rattle.ledger_obligations.specs.Bodies.{alias_position, constructs, is_class_of};
ghost use Rattle.ledger_obligations.specs.MustCallSets.{is_heavy_class, must_of_optional, must_of_type};
ghost use Rattle.ownership_rules.specs.Signatures.{type_at};
ghost use Rattle.java_control.specs.Control.{Step};
ghost use Rattle.control_actions.specs.declared.action.Action.TheVariants as actions;
ghost use Rattle.control_actions.specs.declared.action.Completion.{Completion};
ghost use Rattle.value_laws.specs.Ends.{is_throw};
ghost use Rattle.value_laws.specs.Accept.{Accept};
ghost use Rattle.ledger_state.specs.Contents.{HeapContents};
ghost use Rattle.ledger_state.specs.Fields.{field_value};
ghost use Rattle.ledger_state.specs.Heaps.{object_at, root_of};
ghost use Rattle.ledger_state.specs.Locals.{temp_value, variable_value};
ghost use Rattle.ledger_state.specs.declared.object.Object.{Object};
ghost use Rattle.ledger_state.specs.declared.value.Value.TheVariants as values;
ghost use Rattle.value_laws.specs.Configuration.{Frame};
ghost use Rattle.value_laws.specs.Choosing.{frame_steps};
ghost use Rattle.value_laws.specs.Agreement.{Stands};
ghost use Rattle.value_laws.specs.PlainForms.{HasPlainForms};
ghost use Rattle.value_laws.specs.PlaceFacts.{IsCovered, gives_none, is_heavy_in, OwesOrHolds, renews_none};

/// Into an owning field whose type has an obligation such a constructor stores of the objects whose classes have one, and that may owe a call, or of which a
/// field owns something, its aliased argument alone.
pub fn argument_alone_is_stored()
    ensures { (p : Program) → Accept p → HasPlainForms p → (h : HeapContents) (old : ℕ → Bool) (frs : List Frame) (fr : Frame) → (st : Stands p fr) → IsCovered p h gives_none renews_none old frs fr → (i d : ℕ) (s : Step) (f : FieldId) (o : ℕ) (x : Object) (v : ℕ)
        → slice_get (frame_steps p fr) i ≡ Some s → s.action ≡ actions.PutOwn f d → constructs (method_at p fr.method) ≡ true → alias_position p st.number ≡ Some (suc v) → is_heavy_in p (Some f) ≡ true
        → root_of h (temp_value fr.locals d) ≡ Some o → object_at h o ≡ Some x → is_heavy_class p x.class ≡ true → OwesOrHolds p h o x → root_of h (variable_value fr.locals v) ≡ Some o }
{}

/// As such a constructor ends normally, an owning field of `this` holds its aliased argument, where that is of a class with an obligation and may owe a
/// call, or a field of it owns something. All that the argument's type asks for is asked for by the type of the field.
pub fn aliased_field_holds_the_argument()
    ensures { (p : Program) → Accept p → (h : HeapContents) (old : ℕ → Bool) (frs : List Frame) (fr : Frame) → (st : Stands p fr) → IsCovered p h gives_none renews_none old frs fr → (i : ℕ) (s : Step) (q : Completion) (v w o : ℕ) (x : Object) (m : Method)
        → slice_get (frame_steps p fr) i ≡ Some s → s.action ≡ actions.End q → is_throw q ≡ false → method_at p fr.method ≡ Some m → constructs (method_at p fr.method) ≡ true
        → alias_position p st.number ≡ Some (suc v) → fr.locals.this ≡ values.Object w → root_of h (variable_value fr.locals v) ≡ Some o → object_at h o ≡ Some x → is_heavy_class p x.class ≡ true → OwesOrHolds p h o x
        → (f : FieldId) × (field : Field) × (field_at p f ≡ Some field) × (field.owning ≡ true) × (is_class_of field.class (method_at p fr.method) ≡ true)
        × (set.is_subset (must_of_optional p (type_at m.sig (suc v))) (must_of_type p field.vtype) ≡ true) × (root_of h (field_value p h w f) ≡ Some o) }
{}
