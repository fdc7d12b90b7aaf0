//! Which values of a run are no objects. `texts` tells which objects are of class `String`: they count as none here.
//! Each law is the contract of a function that does nothing.

ghost use Rattle.std.specs.Prelude.{◌≡◌, ◌+◌, ℕ, Bool, true, None, Some, List, ◌∷◌, slice_get};
ghost use Rattle.program_model.specs.declared.kinds.ClassId.{ClassId};
ghost use Rattle.program_model.specs.declared.kinds.FieldId.{FieldId};
ghost use Rattle.program_model.specs.declared.kinds.MethodId.{MethodId};
ghost use Rattle.program_model.specs.declared.program.ParamSig.{ParamSig};
ghost use Rattle.program_model.specs.declared.program.Program.{Program};
ghost use Rattle.program_model.specs.Lookups.{method_at};
ghost use Rattle.program_model.specs.Validity.{IsTypedProgram};
ghost use Rattle.java_control.specs.Calls.{called_method};
ghost use Rattle.java_control.specs.Control.{Step};
ghost use Rattle.control_actions.specs.declared.action.Action.{Action};
ghost use Rattle.control_actions.specs.declared.action.Action.TheVariants as actions;
ghost use Rattle.control_actions.specs.declared.action.Completion.{Completion};
ghost use Rattle.dispatch_laws.specs.Accept.{Accept};
ghost use Rattle.stub_conduct.specs.declared.choice.Choice.{Choice};
ghost use Rattle.stub_conduct.specs.declared.choice.Conduct.{Conduct};
ghost use Rattle.stub_conduct.specs.declared.choice.Conduct.TheVariants as conducts;
ghost use Rattle.ledger_state.specs.Contents.{HeapContents};
ghost use Rattle.ledger_state.specs.Fields.{field_value};
ghost use Rattle.ledger_state.specs.declared.array.ArrayObject.{ArrayObject};
ghost use Rattle.ledger_state.specs.declared.locals.Locals.{Locals};
ghost use Rattle.ledger_moves.specs.Operations.{made_value};
ghost use Rattle.ledger_steps.specs.LedgerCallsCalls.{operand_of, position_of};
ghost use Rattle.ledger_steps.specs.Conducts.{conduct_value, on_this, positions, settled};
ghost use Rattle.ledger_moves.specs.Configuration.{Config, Frame};
ghost use Rattle.ledger_moves.specs.Choosing.{frame_steps};
ghost use Rattle.ledger_steps.specs.Ends.{result_value, thrown_in};
ghost use Rattle.dispatch_laws.specs.Operands.{NoObject, field_type, params_of, result_of};
ghost use Rattle.dispatch_laws.specs.StepOrigins.{MakesNone};
ghost use Rattle.dispatch_laws.specs.Values.{IsNoObjectBut};
ghost use Rattle.value_laws.specs.Types.{GiveAsNamed, HoldTypes, KeepsTypes, StoredHoldNone};

/// At a call that a frame is about to make, the operand of a parameter of no class type is no object but one of `texts`. Parameter `k` is position `k + 1`.
pub fn argument_is_no_object()
    ensures { (texts : ℕ → Bool) (p : Program) → Accept p → (fr : Frame) → KeepsTypes texts p fr
        → (i : ℕ) (t : Step) (named : MethodId) (k : ℕ) (x : ParamSig) → slice_get (frame_steps p fr) i ≡ Some t → called_method t.action ≡ Some named
        → slice_get (params_of (method_at p named)) k ≡ Some x → NoObject (Some x.vtype) → IsNoObjectBut texts (operand_of fr.locals t.action (k + 1)) }
{}

/// The value that a frame gives as it ends normally is no object but one of `texts` where the result of its method is of no class type.
pub fn returned_value_is_no_object()
    ensures { (texts : ℕ → Bool) (p : Program) → Accept p → (fr : Frame) → KeepsTypes texts p fr
        → (i : ℕ) (t : Step) (q : Completion) → slice_get (frame_steps p fr) i ≡ Some t → t.action ≡ actions.End q → thrown_in fr.locals q ≡ None
        → NoObject (result_of (method_at p fr.method)) → IsNoObjectBut texts (result_value fr.locals (method_at p fr.method) q) }
{}

/// A frame's result is of no class type where that of the method is that its caller names.
pub fn result_is_as_named()
    ensures { (p : Program) (fr caller : Frame) (frs : List Frame) → GiveAsNamed p fr (caller ∷ frs)
        → (i : ℕ) (t : Step) (named : MethodId) → slice_get (frame_steps p caller) i ≡ Some t → called_method t.action ≡ Some named
        → NoObject (result_of (method_at p named)) → NoObject (result_of (method_at p fr.method)) }
{}

/// A field of no class type holds no object but one of `texts`.
pub fn field_is_no_object()
    ensures { (texts : ℕ → Bool) (p : Program) (h : HeapContents) (w : ℕ) (f : FieldId) → StoredHoldNone texts p h → NoObject (field_type p f) → IsNoObjectBut texts (field_value p h w f) }
{}

/// What a step makes is no object but one of `texts` where its type is no class type: what is read from a field of such a type, and in any case literals,
/// default values, what is read from static fields and arrays, and what operators give.
pub fn made_value_is_no_object()
    ensures { (texts : ℕ → Bool) (p : Program) → Accept p → (fr : Frame) → KeepsTypes texts p fr → (c : Config) → HoldTypes texts p c
        → (i : ℕ) (t : Step) (choice : Choice) → slice_get (frame_steps p fr) i ≡ Some t → MakesNone p t.action
        → IsNoObjectBut texts (made_value p c.heap c.arrays c.statics choice fr.locals t.action) }
{}

/// What a call of the library gives that throws nothing is no object but one of `texts` where the result is of no class type.
pub fn library_value_is_no_object()
    ensures { (texts : ℕ → Bool) (p : Program) → IsTypedProgram p
        → (h : HeapContents) (arrays : List ArrayObject) (m : MethodId) (choice : Choice) (l : Locals) (a : Action) (d : Conduct) (count k : ℕ)
        → d ≡ on_this a (settled p h arrays m choice (position_of None l a)) → ((e : ClassId) → d ≡ conducts.Throws e → ⊥)
        → NoObject (result_of (method_at p m)) → IsNoObjectBut texts (conduct_value count (method_at p m) (positions l a k d) k d) }
{}
