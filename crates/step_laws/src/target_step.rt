//! Where `this` stands while a body runs. Each law is the contract of a function that does nothing.

ghost use Rattle.std.specs.Prelude.{◌≡◌, ◌⊎◌, ◌<◌, ℕ, Bool, true, Some, List, slice_get};
ghost use Rattle.program_model.specs.declared.kinds.BodyId.{BodyId};
ghost use Rattle.program_model.specs.declared.program.Program.{Program};
ghost use Rattle.program_model.specs.declared.tree.Body.{Body};
ghost use Rattle.program_model.specs.Lookups.{body_at};
ghost use Rattle.program_model.specs.Validity.{IsTypedProgram};
ghost use Rattle.java_control.specs.Control.{Step, next_of, start_of};
ghost use Rattle.java_control.specs.Remaining.{Todo};
ghost use Rattle.java_control.specs.Sources.{source};
ghost use Rattle.control_actions.specs.declared.action.Action.{Action};
ghost use Rattle.control_actions.specs.declared.action.Action.TheVariants as actions;
ghost use Rattle.control_actions.specs.declared.action.Edge.{Edge};
ghost use Rattle.control_actions.specs.declared.place.Place.TheVariants as places;
ghost use Rattle.step_laws.specs.Targets.{FindsIt, FindsThis, after, nowhere_held};

/// When a body begins no temp holds `this`, and each action that is to come finds `this` where it takes it from a temp.
pub fn start_finds_this()
    ensures { (p : Program) → IsTypedProgram p → (n : BodyId) (b : Body) → body_at p n ≡ Some b → FindsThis p b (start_of p n) nowhere_held }
{}

/// Each step of such a control finds `this` where it takes it from a temp, and leaves such a control. The temps that hold `this`
/// are those that `held` tells.
pub fn steps_find_this()
    ensures { (p : Program) → IsTypedProgram p → (n : BodyId) (b : Body) (k : List Todo) (i : ℕ) (t : Step) (held : ℕ → Bool) → body_at p n ≡ Some b
        → FindsThis p b k (λ d. held d ≡ true) → slice_get (next_of p n k) i ≡ Some t
        → FindsIt p b t.action (λ d. held d ≡ true) × FindsThis p b t.to (after t.action (λ d. held d ≡ true)) }
{}

/// A temp that is known to hold `this` after an action was made a copy of `this` by it, or held `this` before and keeps its value.
pub fn temps_keep_this()
    ensures { (p : Program) (b : Body) (a : Action) (e : Edge) (held : ℕ → Bool) (x : ℕ) → x < 64 → after a (λ d. held d ≡ true) x
        → (a ≡ actions.Copy (places.Temp x) places.This) ⊎ ((held x ≡ true) × (source p b a e (places.Temp x) ≡ Some (places.Temp x))) }
{}
