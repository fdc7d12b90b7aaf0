//! Where objects of a class stand while a body runs. Each law is the contract of a function that does nothing.

ghost use Rattle.std.specs.Prelude.{◌≡◌, ℕ, Bool, true, Some, List, slice_get};
ghost use Rattle.program_model.specs.declared.kinds.BodyId.{BodyId};
ghost use Rattle.program_model.specs.declared.kinds.ClassId.{ClassId};
ghost use Rattle.program_model.specs.declared.program.Program.{Program};
ghost use Rattle.program_model.specs.declared.tree.Body.{Body};
ghost use Rattle.program_model.specs.Lookups.{body_at};
ghost use Rattle.program_model.specs.Validity.{IsTypedProgram};
ghost use Rattle.java_control.specs.Control.{Step, next_of, start_of};
ghost use Rattle.java_control.specs.Remaining.{Todo};
ghost use Rattle.step_laws.specs.Operands.{nowhere_held};
ghost use Rattle.step_laws.specs.ClassOperands.{FindsClass, Fits, IsNotAboveString, left_held};

/// When a body begins nothing is known of its temps, and each action that is to come finds the values that it asks: an object of the class
/// `bound` or null where the static type is under the class, and where another operator than `=` stores into an owning field of type `String` the text that
/// it has made.
pub fn start_finds_class()
    ensures { (p : Program) (bound : ClassId) → IsTypedProgram p → IsNotAboveString p bound → (n : BodyId) (b : Body) → body_at p n ≡ Some b → FindsClass p bound b (start_of p n) nowhere_held }
{}

/// Each step of such a control finds the values that it asks, and leaves such a control. The temps that are known to hold an object of the class or null are
/// those that `held` tells.
pub fn steps_find_class()
    ensures { (p : Program) (bound : ClassId) → IsTypedProgram p → IsNotAboveString p bound → (n : BodyId) (b : Body) (k : List Todo) (i : ℕ) (t : Step) (held : ℕ → Bool) → body_at p n ≡ Some b
        → FindsClass p bound b k (λ d. held d ≡ true) → slice_get (next_of p n k) i ≡ Some t
        → Fits p bound b t.action (λ d. held d ≡ true) × FindsClass p bound b t.to (left_held p bound b t.action t.edge (λ d. held d ≡ true)) }
{}
