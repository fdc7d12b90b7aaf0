//! What the steps of valid programs leave as it is. The laws are contracts of functions that do nothing.

ghost use Rattle.std.specs.Prelude.{◌≡◌, ℕ, true, false, Some, List, slice_get};
ghost use Rattle.program_model.specs.declared.kinds.BodyId.{BodyId};
ghost use Rattle.program_model.specs.declared.program.Method.{Method};
ghost use Rattle.program_model.specs.declared.program.Program.{Program};
ghost use Rattle.program_model.specs.declared.tree.Body.{Body};
ghost use Rattle.program_model.specs.Lookups.{body_at, method_at};
ghost use Rattle.program_model.specs.Validity.{IsValid};
ghost use Rattle.accepted_programs.specs.Assigned.{assigns_spoken, is_spoken_variable};
ghost use Rattle.java_control.specs.Remaining.{Todo};
ghost use Rattle.java_control.specs.Sources.{source};
ghost use Rattle.control_actions.specs.declared.action.Action.{Action};
ghost use Rattle.control_actions.specs.declared.action.Edge.{Edge};
ghost use Rattle.control_actions.specs.declared.place.Place.TheVariants as places;
ghost use Rattle.accepted_programs.specs.Paths.{Comes, Move, relation_of};
ghost use Rattle.step_laws.specs.Setting.{sets_this, sets_variable};

/// No step of a reached control sets or empties a parameter that the signature of the body's method speaks of, where the body assigns
/// none of them.
pub fn spoken_parameters_stay()
    ensures { (p : Program) → IsValid p → (b : BodyId) (x : Body) (m : Method) (v : ℕ) → body_at p b ≡ Some x → method_at p x.method ≡ Some m
        → assigns_spoken p x ≡ false → is_spoken_variable m v ≡ true → (k : List Todo) (i : ℕ) (t : Move (List Todo)) → Comes (relation_of p b) k
        → slice_get ((relation_of p b).next k) i ≡ Some t → sets_variable x t.action v ≡ false }
{}

/// No step of a reached control sets or empties `this`.
pub fn this_stays()
    ensures { (p : Program) → IsValid p → (b : BodyId) (x : Body) → body_at p b ≡ Some x → (k : List Todo) (i : ℕ) (t : Move (List Todo)) → Comes (relation_of p b) k
        → slice_get ((relation_of p b).next k) i ≡ Some t → sets_this t.action ≡ false }
{}

/// A variable that a step does not set has after it the value that it had before.
pub fn unset_variables_keep_their_values()
    ensures { (p : Program) (x : Body) (a : Action) (e : Edge) (v : ℕ) → sets_variable x a v ≡ false → source p x a e (places.Var v) ≡ Some (places.Var v) }
{}
