//! The steps of a call. The law is the contract of a function that does nothing.

ghost use Rattle.std.specs.Prelude.{◌≡◌, ℕ, true, Some, List, slice_get};
ghost use Rattle.program_model.specs.declared.kinds.BodyId.{BodyId};
ghost use Rattle.program_model.specs.declared.program.Program.{Program};
ghost use Rattle.java_control.specs.Control.{Step, next_of};
ghost use Rattle.java_control.specs.Remaining.{Todo};
ghost use Rattle.step_laws.specs.Calling.{may_call};

/// Where one step of a control may be a call, each of its steps has the same action.
pub fn call_has_one_action()
    ensures { (p : Program) (b : BodyId) (control : List Todo) (i j : ℕ) (t u : Step) → slice_get (next_of p b control) i ≡ Some t → slice_get (next_of p b control) j ≡ Some u
        → may_call t.action ≡ true → u.action ≡ t.action }
{}
