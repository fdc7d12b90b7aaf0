//! From where the temps take their values. The law is the contract of a function that does nothing.

ghost use Rattle.std.specs.Prelude.{◌≡◌, ◌<◌, ℕ, Bool, true};
ghost use Rattle.program_model.specs.declared.program.Program.{Program};
ghost use Rattle.program_model.specs.declared.tree.Body.{Body};
ghost use Rattle.control_actions.specs.declared.action.Action.{Action};
ghost use Rattle.control_actions.specs.declared.action.Edge.{Edge};
ghost use Rattle.step_laws.specs.Operands.{left_held};
ghost use Rattle.step_laws.specs.Origins.{TakesNone};

/// A temp that is known to hold no object after a step has the value of a place that gave none, or one that the step makes and that
/// is none, or what was cast to a type of no class.
pub fn temps_hold_none()
    ensures { (p : Program) (b : Body) (a : Action) (e : Edge) (held : ℕ → Bool) (x : ℕ) → x < 64 → left_held p b a e (λ d. held d ≡ true) x
        → TakesNone p b a e (λ d. held d ≡ true) x }
{}
