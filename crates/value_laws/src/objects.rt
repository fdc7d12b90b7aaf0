//! Exceptions in the temps of frames. Each law is the contract of a function that does nothing.

ghost use Rattle.std.specs.Prelude.{◌≡◌, ℕ, Some, None, slice_get};
ghost use Rattle.rlc_base.specs.declared.place.Pos.{Pos};
ghost use Rattle.program_model.specs.declared.kinds.ClassId.{ClassId};
ghost use Rattle.program_model.specs.declared.kinds.MethodId.{MethodId};
ghost use Rattle.program_model.specs.declared.program.Program.{Program};
ghost use Rattle.java_control.specs.Control.{Step};
ghost use Rattle.control_actions.specs.declared.action.Action.TheVariants as actions;
ghost use Rattle.control_actions.specs.declared.action.Completion.TheVariants as completions;
ghost use Rattle.dispatch_laws.specs.Accept.{Accept};
ghost use Rattle.stub_conduct.specs.declared.choice.Choices.{Choices};
ghost use Rattle.ledger_state.specs.Contents.{HeapContents};
ghost use Rattle.ledger_moves.specs.Configuration.{Config, Frame};
ghost use Rattle.ledger_moves.specs.Choosing.{frame_steps};
ghost use Rattle.frame_laws.specs.LedgerRunsOutcomes.{went};
ghost use Rattle.frame_laws.specs.Starts.{start_config};
ghost use Rattle.frame_laws.specs.LedgerRunsSteps.{step};
ghost use Rattle.ledger_steps.specs.Ends.{exception_class, thrown_in};
ghost use Rattle.frame_laws.specs.Agreement.{Agree, Stands};
ghost use Rattle.dispatch_laws.specs.PlainForms.{HasPlainForms};
ghost use Rattle.frame_laws.specs.Ranges.{LocalsInRange};
ghost use Rattle.frame_laws.specs.Frames.{HaveTargets};
ghost use Rattle.dispatch_laws.specs.ClassOperands.{IsNotAboveString};
ghost use Rattle.value_laws.specs.ClassValues.{HaveClasses};
ghost use Rattle.value_laws.specs.Thrown.{HaveThrown, HoldsThrown};

/// No exception is on its way out as a run begins.
pub fn thrown_at_start()
    ensures { (p : Program) (main : MethodId) (choices : Choices) → HaveThrown p (start_config p main choices).frames }
{}

/// Each step that is not stray leaves each exception that waits, or is on its way out, in its temp, in an accepted program of the plain forms:
/// what waits stands below the temps in which a `finally` or the closing of a resource works (JLS 14.20.2), and what a `throw` throws is an
/// object, or null, for which a NullPointerException is thrown (JLS 14.18).
pub fn thrown_step()
    ensures { (p : Program) → Accept p → HasPlainForms p → IsNotAboveString p p.core.throwable → (c d : Config) → Agree p c → HaveTargets p c.frames → HaveClasses p c → HaveThrown p c.frames → step p c ≡ went d
        → HaveThrown p d.frames }
{}

/// A frame that ends by an exception gives its caller an exception of a class.
pub fn ends_by_exception()
    ensures { (p : Program) → Accept p → (h : HeapContents) (fr : Frame) → Stands p fr → LocalsInRange h fr.locals → HoldsThrown p fr → (i : ℕ) (s : Step) (d : ℕ) (t : ClassId) (pos : Pos)
        → slice_get (frame_steps p fr) i ≡ Some s → s.action ≡ actions.End (completions.Throw d t pos) → exception_class p h (thrown_in fr.locals (completions.Throw d t pos)) ≡ None → ⊥ }
{}
