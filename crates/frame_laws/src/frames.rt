//! Where `this` stands in the frames of a run. Each law is the contract of a function that does nothing.

ghost use Rattle.std.specs.Prelude.{◌≡◌, ℕ, true, false, Some, slice_get};
ghost use Rattle.program_model.specs.declared.kinds.MethodId.{MethodId};
ghost use Rattle.program_model.specs.declared.kinds.MethodKind.TheVariants as methods;
ghost use Rattle.program_model.specs.declared.program.Method.{Method};
ghost use Rattle.program_model.specs.declared.program.Program.{Program};
ghost use Rattle.program_model.specs.Lookups.{method_at};
ghost use Rattle.java_control.specs.Control.{Step};
ghost use Rattle.fact_laws.specs.Accept.{Accept};
ghost use Rattle.stub_conduct.specs.declared.choice.Choices.{Choices};
ghost use Rattle.ledger_state.specs.Locals.{temp_value};
ghost use Rattle.ledger_state.specs.Values.{is_null};
ghost use Rattle.ledger_steps.specs.LedgerCallsCalls.{has_null_target};
ghost use Rattle.ledger_moves.specs.Configuration.{Config, Frame};
ghost use Rattle.ledger_moves.specs.Choosing.{frame_steps};
ghost use Rattle.agreement.specs.LedgerRunsOutcomes.{went};
ghost use Rattle.agreement.specs.Starts.{start_config};
ghost use Rattle.agreement.specs.LedgerRunsSteps.{step};
ghost use Rattle.ledger_moves.specs.Moves.{has_body};
ghost use Rattle.fact_laws.specs.StepTargets.{this_operand};
ghost use Rattle.frame_laws.specs.Frames.{HaveTargets, KeepsTargets};

/// A run begins with a frame whose actions find `this`: it has none, and takes none.
pub fn targets_at_start()
    ensures { (p : Program) → Accept p → (main : MethodId) (m : Method) (choices : Choices) → method_at p main ≡ Some m → m.kind ≡ methods.Static → has_body m.body ≡ true
        → HaveTargets p (start_config p main choices).frames }
{}

/// Each step that is not stray leaves frames whose actions find `this`, those that wait among them.
pub fn targets_step()
    ensures { (p : Program) → Accept p → (c d : Config) → HaveTargets p c.frames → step p c ≡ went d → HaveTargets p d.frames }
{}

/// An action that takes `this` from a temp finds it there, and it is not null.
pub fn target_is_this()
    ensures { (p : Program) → Accept p → (fr : Frame) → KeepsTargets p fr → (i : ℕ) (t : Step) (d : ℕ) → slice_get (frame_steps p fr) i ≡ Some t
        → this_operand t.action ≡ Some d → (temp_value fr.locals d ≡ fr.locals.this) × (is_null fr.locals.this ≡ false) }
{}

/// So the machine finds no null target at a call on `this` or by `super`.
pub fn target_is_there()
    ensures { (p : Program) → Accept p → (fr : Frame) → KeepsTargets p fr → (i : ℕ) (t : Step) (d : ℕ) → slice_get (frame_steps p fr) i ≡ Some t
        → this_operand t.action ≡ Some d → has_null_target fr.locals t.action ≡ false }
{}
