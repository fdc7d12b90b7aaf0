//! The steps of a run. Each law is the contract of a function that does nothing.

ghost use Rattle.std.specs.Prelude.{◌≡◌, true, Some};
ghost use Rattle.program_model.specs.declared.kinds.MethodId.{MethodId};
ghost use Rattle.program_model.specs.declared.program.Method.{Method};
ghost use Rattle.program_model.specs.declared.program.Program.{Program};
ghost use Rattle.program_model.specs.Lookups.{method_at};
ghost use Rattle.ledger_obligations.specs.WellFormed.{HasSmallInterests};
ghost use Rattle.value_laws.specs.Accept.{Accept};
ghost use Rattle.stub_conduct.specs.declared.choice.Choices.{Choices};
ghost use Rattle.value_laws.specs.Configuration.{Config};
ghost use Rattle.value_laws.specs.Moves.{has_body};
ghost use Rattle.value_laws.specs.LedgerRunsOutcomes.{went};
ghost use Rattle.value_laws.specs.Starts.{start_config};
ghost use Rattle.value_laws.specs.LedgerRunsSteps.{step};
ghost use Rattle.value_laws.specs.Agreement.{Agree};
ghost use Rattle.value_laws.specs.PlainForms.{HasPlainForms};
ghost use Rattle.value_laws.specs.Frames.{HaveTargets};
ghost use Rattle.value_laws.specs.Arguments.{HaveArguments};
ghost use Rattle.value_laws.specs.Types.{HaveTypes};
ghost use Rattle.value_laws.specs.FieldContents.{FieldsHold, FieldsOwn, MakersOwn, TopRunsAlone};
ghost use Rattle.value_laws.specs.PlaceFacts.{AreCovered};
ghost use Rattle.value_laws.specs.Ranges.{AreInRange};
ghost use Rattle.covering_laws.specs.Making.{AreBeingMade};
ghost use Rattle.covering_laws.specs.Running.{HasPlainRuns};
ghost use Rattle.covering_laws.specs.Linking.{LinkedAreAliases};
ghost use Rattle.covering_laws.specs.LibraryClasses.{HasLightTexts};
ghost use Rattle.covering_laws.specs.Sight.{AllActInSight};
ghost use Rattle.covering_laws.specs.Throws.{TopEndsAsDeclared, TopRaisesExceptions};

/// A run begins with the frame of `main`, whose places hold no object.
pub fn covered_at_start()
    ensures { (p : Program) → Accept p → (main : MethodId) (m : Method) (choices : Choices) → method_at p main ≡ Some m → has_body m.body ≡ true
        → AreCovered p (start_config p main choices).heap (start_config p main choices).frames }
{}

/// Each step that is not stray leaves each place of the frames in a fact that is true of what it holds.
pub fn covered_step()
    ensures { (p : Program) → Accept p → HasPlainForms p → HasPlainRuns p → HasSmallInterests p → HasLightTexts p → (c d : Config) → Agree p c → HaveTargets p c.frames → HaveTypes p c
        → AreInRange c → FieldsHold p c.frames c.heap → AreBeingMade p c.heap c.frames → LinkedAreAliases p c.heap → FieldsOwn p c.heap → MakersOwn p c.heap c.frames → AreCovered p c.heap c.frames
        → HaveArguments p c.frames → TopEndsAsDeclared p c.heap c.frames → TopRaisesExceptions p c.heap c.frames → AllActInSight p c.heap c.frames → TopRunsAlone p c.heap c.frames → step p c ≡ went d → AreCovered p d.heap d.frames }
{}

/// A run begins with one frame, which waits for none.
pub fn being_made_at_start()
    ensures { (p : Program) (main : MethodId) (choices : Choices) → AreBeingMade p (start_config p main choices).heap (start_config p main choices).frames }
{}

/// Each step that is not stray leaves the objects unfinished whose constructors still run.
pub fn being_made_step()
    ensures { (p : Program) → Accept p → HasPlainForms p → HasPlainRuns p → HasSmallInterests p → HasLightTexts p → (c d : Config) → Agree p c → HaveTargets p c.frames → HaveTypes p c
        → AreInRange c → FieldsHold p c.frames c.heap → AreBeingMade p c.heap c.frames → LinkedAreAliases p c.heap → FieldsOwn p c.heap → MakersOwn p c.heap c.frames → AreCovered p c.heap c.frames
        → HaveArguments p c.frames → TopEndsAsDeclared p c.heap c.frames → TopRaisesExceptions p c.heap c.frames → AllActInSight p c.heap c.frames → TopRunsAlone p c.heap c.frames → step p c ≡ went d → AreBeingMade p d.heap d.frames }
{}

/// A run begins without objects.
pub fn linked_are_aliases_at_start()
    ensures { (p : Program) (main : MethodId) (choices : Choices) → LinkedAreAliases p (start_config p main choices).heap }
{}

/// After each step that is not stray, what is linked to another object is of a class whose objects some method or constructor gives as aliases.
pub fn linked_are_aliases_step()
    ensures { (p : Program) → Accept p → HasPlainForms p → HasPlainRuns p → HasSmallInterests p → HasLightTexts p → (c d : Config) → Agree p c → HaveTargets p c.frames → HaveTypes p c
        → AreInRange c → FieldsHold p c.frames c.heap → AreBeingMade p c.heap c.frames → LinkedAreAliases p c.heap → FieldsOwn p c.heap → MakersOwn p c.heap c.frames → AreCovered p c.heap c.frames
        → HaveArguments p c.frames → TopEndsAsDeclared p c.heap c.frames → TopRaisesExceptions p c.heap c.frames → AllActInSight p c.heap c.frames → TopRunsAlone p c.heap c.frames → step p c ≡ went d → LinkedAreAliases p d.heap }
{}

/// A run begins without objects, so no field holds one.
pub fn fields_own_at_start()
    ensures { (p : Program) (main : MethodId) (choices : Choices) → FieldsOwn p (start_config p main choices).heap }
{}

/// After each step that is not stray, an owning field whose type has an obligation, and that holds an object whose class has one, is declared by the class of its object;
/// and where this is finished, and the object may owe a call, or a field of it owns something, the field owns it, or the field's object is linked to it.
pub fn fields_own_step()
    ensures { (p : Program) → Accept p → HasPlainForms p → HasPlainRuns p → HasSmallInterests p → HasLightTexts p → (c d : Config) → Agree p c → HaveTargets p c.frames → HaveTypes p c
        → AreInRange c → FieldsHold p c.frames c.heap → AreBeingMade p c.heap c.frames → LinkedAreAliases p c.heap → FieldsOwn p c.heap → MakersOwn p c.heap c.frames → AreCovered p c.heap c.frames
        → HaveArguments p c.frames → TopEndsAsDeclared p c.heap c.frames → TopRaisesExceptions p c.heap c.frames → AllActInSight p c.heap c.frames → TopRunsAlone p c.heap c.frames → step p c ≡ went d → FieldsOwn p d.heap }
{}

/// A run begins without objects.
pub fn makers_own_at_start()
    ensures { (p : Program) (main : MethodId) (choices : Choices) → MakersOwn p (start_config p main choices).heap (start_config p main choices).frames }
{}

/// After each step that is not stray, what the owning fields hold of what a frame makes by a constructor without an aliased argument, these fields own.
pub fn makers_own_step()
    ensures { (p : Program) → Accept p → HasPlainForms p → HasPlainRuns p → HasSmallInterests p → HasLightTexts p → (c d : Config) → Agree p c → HaveTargets p c.frames → HaveTypes p c
        → AreInRange c → FieldsHold p c.frames c.heap → AreBeingMade p c.heap c.frames → LinkedAreAliases p c.heap → FieldsOwn p c.heap → MakersOwn p c.heap c.frames → AreCovered p c.heap c.frames
        → HaveArguments p c.frames → TopEndsAsDeclared p c.heap c.frames → TopRaisesExceptions p c.heap c.frames → AllActInSight p c.heap c.frames → TopRunsAlone p c.heap c.frames → step p c ≡ went d → MakersOwn p d.heap d.frames }
{}
