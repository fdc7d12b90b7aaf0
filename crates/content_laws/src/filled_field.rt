//! Stores into owning fields by the frames of a run. Each law is the contract of a function that does nothing.

ghost use Rattle.std.specs.Prelude.{◌≡◌};
ghost use Rattle.program_model.specs.declared.kinds.MethodId.{MethodId};
ghost use Rattle.program_model.specs.declared.program.Program.{Program};
ghost use Rattle.covering_laws.specs.Accept.{Accept};
ghost use Rattle.stub_conduct.specs.declared.choice.Choices.{Choices};
ghost use Rattle.covering_laws.specs.Configuration.{Config};
ghost use Rattle.covering_laws.specs.LedgerRunsOutcomes.{went};
ghost use Rattle.covering_laws.specs.Starts.{start_config};
ghost use Rattle.covering_laws.specs.LedgerRunsSteps.{step};
ghost use Rattle.covering_laws.specs.Agreement.{AllStand, HasMadeClasses};
ghost use Rattle.covering_laws.specs.PlainForms.{HasPlainForms};
ghost use Rattle.covering_laws.specs.Frames.{HaveTargets};
ghost use Rattle.covering_laws.specs.FieldContents.{AreNew, AreUnfinished};
ghost use Rattle.covering_laws.specs.Ranges.{AreInRange};
ghost use Rattle.covering_laws.specs.Sight.{AllActInSight};
ghost use Rattle.content_laws.specs.Filled.{AreFilled, TopStoresReadily};

/// No field holds an object as a run begins.
pub fn fields_filled_at_start()
    ensures { (p : Program) (main : MethodId) (choices : Choices) → AreFilled p (start_config p main choices).heap (start_config p main choices).frames }
{}

/// Each step that is not stray leaves frames whose constructors have stored what the owning fields of their objects hold, in an accepted program of the
/// plain forms: a field of a new object holds no object, and the constructors of the class that declares an owning field alone store one there,
/// while the object is not finished, and methods that they call on it.
pub fn fields_filled_step()
    ensures { (p : Program) → Accept p → HasPlainForms p → (c d : Config) → HasMadeClasses p c.heap → AllStand p c.frames → HaveTargets p c.frames → AreInRange c → AreNew p c.frames
        → AreFilled p c.heap c.frames → AllActInSight p c.heap c.frames → AreUnfinished p c.heap c.frames → TopStoresReadily p c.heap c.frames → step p c ≡ went d → AreFilled p d.heap d.frames }
{}
