//! Where no object can stand while a body runs. Each law is the contract of a function that does nothing.

ghost use Rattle.std.specs.Prelude.{◌≡◌, ℕ, Bool, true, Some, List, slice_get};
ghost use Rattle.program_model.specs.declared.kinds.BodyId.{BodyId};
ghost use Rattle.program_model.specs.declared.program.Program.{Program};
ghost use Rattle.program_model.specs.declared.tree.Body.{Body};
ghost use Rattle.program_model.specs.Lookups.{body_at};
ghost use Rattle.program_model.specs.Validity.{IsTypedProgram};
ghost use Rattle.java_control.specs.Control.{Step, next_of, start_of};
ghost use Rattle.java_control.specs.Remaining.{Todo};
ghost use Rattle.step_laws.specs.Operands.{FindsTypes, Fits, left_held, nowhere_held};

/// When a body begins nothing is known of its temps, and each action that is to come finds the values that it asks: no object
/// but one of class `String` where the static type is no class type.
pub fn start_finds_types()
    ensures { (p : Program) → IsTypedProgram p → (n : BodyId) (b : Body) → body_at p n ≡ Some b → FindsTypes p b (start_of p n) nowhere_held }
{}

/// Each step of such a control finds the values that it asks, and leaves such a control. The temps that are known to hold no
/// object but one of class `String` are those that `held` tells.
pub fn steps_find_types()
    ensures { (p : Program) → IsTypedProgram p → (n : BodyId) (b : Body) (k : List Todo) (i : ℕ) (t : Step) (held : ℕ → Bool) → body_at p n ≡ Some b
        → FindsTypes p b k (λ d. held d ≡ true) → slice_get (next_of p n k) i ≡ Some t
        → Fits p b t.action (λ d. held d ≡ true) × FindsTypes p b t.to (left_held p b t.action t.edge (λ d. held d ≡ true)) }
{}
