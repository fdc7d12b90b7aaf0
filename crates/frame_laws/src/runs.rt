//! What is held in a run is there. Each law is the contract of a function that does nothing.

ghost use Rattle.std.specs.Prelude.{◌≡◌};
ghost use Rattle.program_model.specs.declared.kinds.MethodId.{MethodId};
ghost use Rattle.program_model.specs.declared.program.Program.{Program};
ghost use Rattle.fact_laws.specs.Accept.{Accept};
ghost use Rattle.stub_conduct.specs.declared.choice.Choices.{Choices};
ghost use Rattle.ledger_moves.specs.Configuration.{Config};
ghost use Rattle.agreement.specs.LedgerRunsOutcomes.{went};
ghost use Rattle.agreement.specs.Starts.{start_config};
ghost use Rattle.agreement.specs.LedgerRunsSteps.{step};
ghost use Rattle.agreement.specs.Agreement.{Agree};
ghost use Rattle.agreement.specs.PlainForms.{HasPlainForms};
ghost use Rattle.frame_laws.specs.Frames.{HaveTargets};
ghost use Rattle.agreement.specs.Ranges.{AreInRange};

/// A run begins with objects in range: there are none.
pub fn ranges_at_start()
    ensures { (p : Program) (main : MethodId) (choices : Choices) → AreInRange (start_config p main choices) }
{}

/// Each step that is not stray leaves what is held in range.
pub fn ranges_step()
    ensures { (p : Program) → Accept p → HasPlainForms p → (c d : Config) → Agree p c → HaveTargets p c.frames → AreInRange c → step p c ≡ went d → AreInRange d }
{}
