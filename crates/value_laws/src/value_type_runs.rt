//! Where objects can stand in a run. Each law is the contract of a function that does nothing.

ghost use Rattle.std.specs.Prelude.{◌≡◌, true, Some};
ghost use Rattle.program_model.specs.declared.kinds.MethodId.{MethodId};
ghost use Rattle.program_model.specs.declared.kinds.MethodKind.TheVariants as methods;
ghost use Rattle.program_model.specs.declared.program.Method.{Method};
ghost use Rattle.program_model.specs.declared.program.Program.{Program};
ghost use Rattle.program_model.specs.Lookups.{method_at};
ghost use Rattle.program_model.specs.Overrides.{is_library};
ghost use Rattle.dispatch_laws.specs.Accept.{Accept};
ghost use Rattle.stub_conduct.specs.declared.choice.Choices.{Choices};
ghost use Rattle.ledger_moves.specs.Configuration.{Config};
ghost use Rattle.frame_laws.specs.LedgerRunsOutcomes.{went};
ghost use Rattle.frame_laws.specs.Starts.{start_config};
ghost use Rattle.frame_laws.specs.LedgerRunsSteps.{step};
ghost use Rattle.ledger_moves.specs.Moves.{has_body};
ghost use Rattle.frame_laws.specs.Agreement.{HasMadeClasses};
ghost use Rattle.dispatch_laws.specs.PlainForms.{HasPlainForms};
ghost use Rattle.value_laws.specs.Types.{HaveTypes, TopHoldsWhatIsThere};

/// A run begins with the frame of `main`, whose one argument is an array.
pub fn types_at_start()
    ensures { (p : Program) → Accept p → (main : MethodId) (m : Method) (choices : Choices) → method_at p main ≡ Some m → has_body m.body ≡ true
        → HaveTypes p (start_config p main choices) }
{}

/// Each step that is not stray leaves no object where the static type of a place is no class type, but objects of class `String`, which is the
/// library's. (What the top frame throws is there.)
pub fn types_step()
    ensures { (p : Program) → Accept p → HasPlainForms p → is_library p p.core.string ≡ true → (c d : Config) → HasMadeClasses p c.heap → TopHoldsWhatIsThere c.heap c.frames → HaveTypes p c
        → step p c ≡ went d → HaveTypes p d }
{}
