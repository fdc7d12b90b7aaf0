//! The laws of soundness. Each is the contract of a function that does nothing.

ghost use Rattle.std.specs.Prelude.{◌≡◌};
ghost use Rattle.program_model.specs.declared.kinds.MethodId.{MethodId};
ghost use Rattle.program_model.specs.declared.program.Program.{Program};
ghost use Rattle.content_laws.specs.Accept.{Accept};
ghost use Rattle.stub_conduct.specs.declared.choice.Choices.{Choices};
ghost use Rattle.content_laws.specs.Configuration.{Config};
ghost use Rattle.content_laws.specs.LedgerRunsOutcomes.{went};
ghost use Rattle.content_laws.specs.Starts.{start_config};
ghost use Rattle.content_laws.specs.LedgerRunsSteps.{step};
ghost use Rattle.content_laws.specs.Safety.{IsMain, IsSafe, IsSafeAt};
ghost use Rattle.content_laws.specs.Frames.{HaveTargets};
ghost use Rattle.content_laws.specs.Agreement.{Agree};
ghost use Rattle.content_laws.specs.Linking.{LinkedAreAliases};
ghost use Rattle.content_laws.specs.LibraryClasses.{GivesLibraryClasses, ThrowsMadeClasses};
ghost use Rattle.content_laws.specs.PlainForms.{HasPlainForms};
ghost use Rattle.content_laws.specs.FieldContents.{FieldsHold, FieldsOwn, HaveContents};
ghost use Rattle.content_laws.specs.PlaceFacts.{AreCovered};
ghost use Rattle.content_laws.specs.Ranges.{AreInRange};
ghost use Rattle.content_laws.specs.Arguments.{HaveArguments};
ghost use Rattle.content_laws.specs.Sight.{AllActInSight};
ghost use Rattle.content_laws.specs.Making.{AreBeingMade};
ghost use Rattle.content_laws.specs.Throws.{TopEndsByException};
ghost use Rattle.soundness_laws.specs.Holding.{Holds};
ghost use Rattle.content_laws.specs.Filled.{AreFilled};
ghost use Rattle.content_laws.specs.AgreementConditions.{MeetsFileConditions};

/// In an accepted program that has what files give, the bodies have the plain forms: an object with owning fields runs the must-call method that its own
/// class declares (JLS 8.4.8.1, 15.12.4.4).
pub fn accepted_has_plain_forms()
    ensures { (p : Program) → Accept p → MeetsFileConditions p → HasPlainForms p }
{}

/// All invariants hold as a run of an accepted program begins.
pub fn holds_at_start()
    ensures { (p : Program) → Accept p → GivesLibraryClasses p → (main : MethodId) (choices : Choices) → IsMain p main → Holds p (start_config p main choices) }
{}

/// Each step that is not stray keeps the agreement with the facts, in an accepted program of the plain forms, by what else holds.
pub fn agree_step()
    ensures { (p : Program) → Accept p → HasPlainForms p → GivesLibraryClasses p → ThrowsMadeClasses p → (c d : Config) → Agree p c → HaveTargets p c.frames → FieldsHold p c.frames c.heap → AllActInSight p c.heap c.frames → AreCovered p c.heap c.frames
        → AreInRange c → AreBeingMade p c.heap c.frames → HaveArguments p c.frames → TopEndsByException p c.heap c.frames → AreFilled p c.heap c.frames → FieldsOwn p c.heap → LinkedAreAliases p c.heap → step p c ≡ went d → Agree p d }
{}

/// Each step that is not stray keeps all invariants, in an accepted program that has what files give.
pub fn holds_step()
    ensures { (p : Program) → Accept p → MeetsFileConditions p → (c d : Config) → Holds p c → step p c ≡ went d → Holds p d }
{}

/// A moment that agrees with the facts, and where fields hold what they own, is safe.
pub fn agree_is_safe()
    ensures { (p : Program) → Accept p → (c : Config) → Agree p c → HaveContents p c.frames c.heap → IsSafeAt p c }
{}

/// A program that is accepted, and has what every program of files has, is safe in every run, whatever an honest library chooses, up to the first stray exception.
pub fn accepted_is_safe()
    ensures { (p : Program) → Accept p → MeetsFileConditions p → IsSafe p }
{}
