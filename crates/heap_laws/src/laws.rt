//! What a call of the library makes. The law is the contract of a function that does nothing.

ghost use Rattle.std.specs.Prelude.{ℕ, List};
ghost use Rattle.program_model.specs.declared.kinds.MethodId.{MethodId};
ghost use Rattle.program_model.specs.declared.program.Program.{Program};
ghost use Rattle.program_model.specs.Lookups.{method_at};
ghost use Rattle.control_actions.specs.declared.action.Action.{Action};
ghost use Rattle.stub_conduct.specs.declared.choice.Choice.{Choice};
ghost use Rattle.ledger_state.specs.Contents.{HeapContents};
ghost use Rattle.ledger_state.specs.declared.array.ArrayObject.{ArrayObject};
ghost use Rattle.ledger_state.specs.declared.value.Value.{Value};
ghost use Rattle.ledger_steps.specs.Conducts.{on_this, settled};
ghost use Rattle.heap_laws.specs.Fitting.{FitsMethod};

/// By whatever choice, an object that a call of the library makes fits the signature of its method.
pub fn made_object_fits()
    ensures { (p : Program) (h : HeapContents) (arrays : List ArrayObject) (m : MethodId) (choice : Choice) (at : ℕ → Value) (a : Action)
        → FitsMethod p (method_at p m) (on_this a (settled p h arrays m choice at)) }
{}
