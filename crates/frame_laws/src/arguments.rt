//! The arguments in the frames of a run. Each law is the contract of a function that does nothing.

ghost use Rattle.std.specs.Prelude.{◌≡◌};
ghost use Rattle.program_model.specs.declared.kinds.MethodId.{MethodId};
ghost use Rattle.program_model.specs.declared.program.Program.{Program};
ghost use Rattle.fact_laws.specs.Accept.{Accept};
ghost use Rattle.stub_conduct.specs.declared.choice.Choices.{Choices};
ghost use Rattle.ledger_moves.specs.Configuration.{Config};
ghost use Rattle.agreement.specs.LedgerRunsOutcomes.{went};
ghost use Rattle.agreement.specs.Starts.{start_config};
ghost use Rattle.agreement.specs.LedgerRunsSteps.{step};
ghost use Rattle.agreement.specs.Agreement.{AllStand, HasMadeClasses};
ghost use Rattle.agreement.specs.PlainForms.{HasPlainForms};
ghost use Rattle.frame_laws.specs.Frames.{HaveTargets};
ghost use Rattle.frame_laws.specs.Arguments.{HaveArguments};

/// A run begins with one frame, which no other frame has called.
pub fn arguments_at_start()
    ensures { (p : Program) (main : MethodId) (choices : Choices) → HaveArguments p (start_config p main choices).frames }
{}

/// Each step that is not stray leaves frames that hold their arguments, in an accepted program of the plain forms: no step of a body sets a
/// parameter that the signature of its method speaks of, and a frame that waits stays as it is.
pub fn arguments_step()
    ensures { (p : Program) → Accept p → HasPlainForms p → (c d : Config) → HasMadeClasses p c.heap → AllStand p c.frames → HaveTargets p c.frames → HaveArguments p c.frames
        → step p c ≡ went d → HaveArguments p d.frames }
{}
