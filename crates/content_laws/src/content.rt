//! What owning fields hold and own, and where links lead, in a run. Each law is the contract of a function that does nothing.

ghost use Rattle.std.specs.Prelude.{◌≡◌, false, Some, List, ◌∷◌};
ghost use Rattle.program_model.specs.declared.kinds.MethodId.{MethodId};
ghost use Rattle.program_model.specs.declared.program.Method.{Method};
ghost use Rattle.program_model.specs.declared.program.Program.{Program};
ghost use Rattle.program_model.specs.Lookups.{method_at};
ghost use Rattle.must_call_sets.specs.Bodies.{constructs};
ghost use Rattle.covering_laws.specs.Accept.{Accept};
ghost use Rattle.stub_conduct.specs.declared.choice.Choices.{Choices};
ghost use Rattle.covering_laws.specs.Configuration.{Config, Frame};
ghost use Rattle.covering_laws.specs.LedgerRunsOutcomes.{went};
ghost use Rattle.covering_laws.specs.Starts.{start_config};
ghost use Rattle.covering_laws.specs.LedgerRunsSteps.{step};
ghost use Rattle.covering_laws.specs.Frames.{HaveTargets};
ghost use Rattle.covering_laws.specs.Agreement.{Agree};
ghost use Rattle.covering_laws.specs.PlainForms.{HasPlainForms};
ghost use Rattle.covering_laws.specs.FieldContents.{FieldsHold, FieldsOwn, IsBeingMade};
ghost use Rattle.covering_laws.specs.PlaceFacts.{AreCovered};
ghost use Rattle.covering_laws.specs.Ranges.{AreInRange};
ghost use Rattle.covering_laws.specs.Heaps.{HasEarlierLinks};
ghost use Rattle.covering_laws.specs.Linking.{LinkedAreAliases};
ghost use Rattle.covering_laws.specs.Arguments.{HaveArguments};
ghost use Rattle.covering_laws.specs.Sight.{AllActInSight};
ghost use Rattle.content_laws.specs.Exits.{TopEndsByClass};

/// A run begins with no contents and no links: there is no object, and `main` is no constructor.
pub fn fields_hold_at_start()
    ensures { (p : Program) (main : MethodId) (m : Method) (choices : Choices) → method_at p main ≡ Some m → constructs (Some m) ≡ false
        → FieldsHold p (start_config p main choices).frames (start_config p main choices).heap }
{}

/// Each step that is not stray keeps what owning fields hold and own, and that calls on each object reach the end of its links, in an accepted program of
/// the plain forms: what fields own fits them, and where the object that has them is met, so is what they own. (An object that a `new` makes is
/// not finished. Where its constructor has an aliased argument, one of its fields holds this as the constructor ends.)
pub fn fields_hold_step()
    ensures { (p : Program) → Accept p → HasPlainForms p → (c d : Config) → Agree p c → HaveTargets p c.frames → AreInRange c → AreCovered p c.heap c.frames
        → FieldsHold p c.frames c.heap → FieldsOwn p c.heap → LinkedAreAliases p c.heap → ((fr caller : Frame) (rest : List Frame) → c.frames ≡ fr ∷ caller ∷ rest → IsBeingMade p c.heap fr caller)
        → AllActInSight p c.heap c.frames → HasEarlierLinks d.heap → HaveArguments p c.frames → TopEndsByClass p c.heap c.frames → step p c ≡ went d → FieldsHold p d.frames d.heap }
{}
