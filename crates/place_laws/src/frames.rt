//! The temps of a frame after a step. The law is the contract of a function that does nothing.

ghost use Rattle.std.specs.Prelude.{◌≡◌, ◌<◌, ℕ, Bool, false, Some};
ghost use Rattle.program_model.specs.declared.kinds.MethodId.{MethodId};
ghost use Rattle.program_model.specs.declared.program.Program.{Program};
ghost use Rattle.program_model.specs.declared.tree.Body.{Body};
ghost use Rattle.control_actions.specs.declared.action.Action.{Action};
ghost use Rattle.control_actions.specs.declared.action.Edge.{Edge};
ghost use Rattle.java_control.specs.Sources.{is_throws};
ghost use Rattle.ledger_state.specs.declared.locals.Locals.{Locals};
ghost use Rattle.ledger_state.specs.declared.value.Value.{Value};
ghost use Rattle.ledger_state.specs.Contents.{HeapContents};
ghost use Rattle.ledger_state.specs.Locals.{temp_value};
ghost use Rattle.ledger_frames.specs.Choosing.{method_body};
ghost use Rattle.ledger_frames.specs.Frames.{locals_after};
ghost use Rattle.step_laws.specs.Operands.{left_held};
ghost use Rattle.step_laws.specs.Origins.{IsCastToNone, MakesNone};
ghost use Rattle.place_laws.specs.Values.{IsNoObjectBut, temp_holds_none};
ghost use Rattle.place_laws.specs.FrameValues.{FieldsHoldNone, VariablesHoldNone};

/// A temp that is known to hold no object after a step holds none but one of `texts`, where the variables and the owning fields of types of no
/// class hold no others, and neither what the step makes nor what passes a cast to such a type is another.
pub fn temps_after_step()
    ensures { (texts : ℕ → Bool) (p : Program) (h : HeapContents) (m : MethodId) (b : Body) (l : Locals) (v : Value) (a : Action) (e : Edge) (x : ℕ) → method_body p m ≡ Some b → x < 64
        → VariablesHoldNone texts b l → FieldsHoldNone texts p h m b l
        → (is_throws e ≡ false → MakesNone p a → IsNoObjectBut texts v) → (is_throws e ≡ false → IsCastToNone a x → IsNoObjectBut texts (temp_value l x))
        → left_held p b a e (temp_holds_none texts l) x → temp_holds_none texts (locals_after p h m l a e v) x }
{}
