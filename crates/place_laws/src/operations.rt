//! What operations give and store. `texts` tells which objects are of class `String`: they count as none here.
//! Each law is the contract of a function that does nothing.

ghost use Rattle.std.specs.Prelude.{ℕ, Bool, List};
ghost use Rattle.program_model.specs.declared.program.Program.{Program};
ghost use Rattle.program_model.specs.declared.tree.Body.{Body};
ghost use Rattle.control_actions.specs.declared.action.Action.{Action};
ghost use Rattle.control_actions.specs.declared.action.Operator.{Operator};
ghost use Rattle.control_actions.specs.declared.action.PlainValue.{PlainValue};
ghost use Rattle.stub_conduct.specs.declared.choice.Choice.{Choice};
ghost use Rattle.ledger_state.specs.declared.array.ArrayObject.{ArrayObject};
ghost use Rattle.ledger_state.specs.declared.locals.Locals.{Locals};
ghost use Rattle.ledger_state.specs.declared.object.StoredStatic.{StoredStatic};
ghost use Rattle.ledger_state.specs.Contents.{HeapContents};
ghost use Rattle.ledger_frames.specs.Operations.{arrays_after, operator_value, plain_value, statics_after};
ghost use Rattle.step_laws.specs.Operands.{Fits, OperandsFit};
ghost use Rattle.place_laws.specs.Values.{ArraysHoldNone, IsNoObjectBut, StaticsHoldNone, temp_holds_none};

/// An operation whose operands are as their static types say gives no object: an element is none, and neither is what is stored
/// or cast to a primitive type.
pub fn operations_give_none()
    ensures { (texts : ℕ → Bool) (p : Program) (h : HeapContents) (arrays : List ArrayObject) (c : Choice) (l : Locals) (o : Operator) (d : ℕ) → ArraysHoldNone texts arrays
        → OperandsFit o d (temp_holds_none texts l) → IsNoObjectBut texts (operator_value p h arrays c l o d) }
{}

/// No object is stored into a static field.
pub fn statics_keep_none()
    ensures { (texts : ℕ → Bool) (p : Program) (b : Body) (statics : List StoredStatic) (l : Locals) (a : Action) → StaticsHoldNone texts statics
        → Fits p b a (temp_holds_none texts l) → StaticsHoldNone texts (statics_after statics l a) }
{}

/// No object is stored into an array, and the elements of a new one are none.
pub fn arrays_keep_none()
    ensures { (texts : ℕ → Bool) (p : Program) (b : Body) (arrays : List ArrayObject) (l : Locals) (a : Action) → ArraysHoldNone texts arrays
        → Fits p b a (temp_holds_none texts l) → ArraysHoldNone texts (arrays_after arrays l a) }
{}

/// Literals, default values and static fields give no object. The constant of a library is made by its call.
pub fn plain_gives_none()
    ensures { (texts : ℕ → Bool) (p : Program) (statics : List StoredStatic) (v : PlainValue) → StaticsHoldNone texts statics → IsNoObjectBut texts (plain_value p statics v) }
{}
