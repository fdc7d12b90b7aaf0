//! The store into an owning field of `this`. Each law is the contract of a function that does nothing.

ghost use Rattle.std.specs.Prelude.{◌≡◌, ℕ, Bool, List, false, Some, slice_get};
ghost use Rattle.program_model.specs.declared.kinds.FieldId.{FieldId};
ghost use Rattle.program_model.specs.declared.program.Program.{Program};
ghost use Rattle.program_model.specs.Lookups.{method_at};
ghost use Rattle.ledger_obligations.specs.Bodies.{is_alias_constructor};
ghost use Rattle.java_control.specs.Control.{Step};
ghost use Rattle.control_actions.specs.declared.action.Action.TheVariants as actions;
ghost use Rattle.value_laws.specs.Accept.{Accept};
ghost use Rattle.ledger_state.specs.Contents.{HeapContents};
ghost use Rattle.ledger_state.specs.Heaps.{root_of};
ghost use Rattle.ledger_state.specs.Locals.{temp_value};
ghost use Rattle.ledger_state.specs.declared.object.Object.{Object};
ghost use Rattle.ledger_obligations.specs.Obligations.{is_unmet};
ghost use Rattle.value_laws.specs.Configuration.{Frame};
ghost use Rattle.value_laws.specs.Choosing.{frame_steps};
ghost use Rattle.value_laws.specs.Agreement.{Stands};
ghost use Rattle.value_laws.specs.PlainForms.{HasPlainForms, StoresPlainly};
ghost use Rattle.value_laws.specs.PlaceFacts.{IsCovered, gives_none, renews_none};
ghost use Rattle.covering_laws.specs.Covering.{HoldsHeavy};

/// What an owning field held is met where another object is stored over it (by a constructor, or by a method that creates the obligation of `this` anew into a field whose type has an obligation).
pub fn overwritten_is_met()
    ensures { (p : Program) → Accept p → HasPlainForms p → (h : HeapContents) (frs : List Frame) (fr : Frame) → (st : Stands p fr) → is_alias_constructor p st.number ≡ false → (old : ℕ → Bool) → IsCovered p h gives_none renews_none old frs fr
        → (i d : ℕ) (s : Step) (f : FieldId) (w o : ℕ) (x : Object) → slice_get (frame_steps p fr) i ≡ Some s → s.action ≡ actions.PutOwn f d → StoresPlainly p (method_at p fr.method) f
        → HoldsHeavy p h fr w f o x → (root_of h (temp_value fr.locals d) ≡ Some o → ⊥) → is_unmet x ≡ false }
{}
