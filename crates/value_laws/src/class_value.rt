//! Where objects of a class stand in a run. Each law is the contract of a function that does nothing.

ghost use Rattle.std.specs.Prelude.{◌≡◌, true, Some, List};
ghost use Rattle.program_model.specs.declared.kinds.MethodId.{MethodId};
ghost use Rattle.program_model.specs.declared.program.Method.{Method};
ghost use Rattle.program_model.specs.declared.program.Program.{Program};
ghost use Rattle.program_model.specs.Lookups.{method_at};
ghost use Rattle.dispatch_laws.specs.Accept.{Accept};
ghost use Rattle.stub_conduct.specs.declared.choice.Choices.{Choices};
ghost use Rattle.ledger_state.specs.Contents.{HeapContents};
ghost use Rattle.ledger_moves.specs.Configuration.{Config, Frame};
ghost use Rattle.ledger_moves.specs.Moves.{has_body};
ghost use Rattle.frame_laws.specs.LedgerRunsOutcomes.{went};
ghost use Rattle.frame_laws.specs.Starts.{start_config};
ghost use Rattle.frame_laws.specs.LedgerRunsSteps.{step};
ghost use Rattle.frame_laws.specs.Agreement.{Agree};
ghost use Rattle.dispatch_laws.specs.PlainForms.{HasPlainForms};
ghost use Rattle.frame_laws.specs.Frames.{HaveTargets};
ghost use Rattle.dispatch_laws.specs.ClassOperands.{IsNotAboveString};
ghost use Rattle.value_laws.specs.ClassValues.{FramesFitClass, HaveClasses, KeepsResultClasses};
ghost use Rattle.value_laws.specs.Exceptions.{TopEndsByException, TopRaisesException};

/// A run begins with the frame of `main`, whose one argument is an array.
pub fn classes_at_start()
    ensures { (p : Program) → Accept p → (main : MethodId) (m : Method) (choices : Choices) → method_at p main ≡ Some m → has_body m.body ≡ true → HaveClasses p (start_config p main choices) }
{}

/// Each step that is not stray leaves objects of a class or null alone where the static type of a place is under the class, for each class that `String` is not
/// under, in an accepted program of the plain forms. (An exception by which the top frame ends has a class.)
pub fn classes_step()
    ensures { (p : Program) → Accept p → HasPlainForms p → KeepsResultClasses p → (c d : Config) → Agree p c → HaveTargets p c.frames → TopEndsByException p c.heap c.frames → HaveClasses p c
        → step p c ≡ went d → HaveClasses p d }
{}

/// What a `throw` throws is an object of a class under `Throwable`, or null, which the step replaces by a NullPointerException (JLS 14.18).
pub fn raised_values_are_exceptions()
    ensures { (p : Program) → Accept p → IsNotAboveString p p.core.throwable → (h : HeapContents) (frs : List Frame) → FramesFitClass p p.core.throwable h frs → TopRaisesException p h frs }
{}
