//! What the steps of valid programs name. The law is the contract of a function that does nothing.

ghost use Rattle.std.specs.Prelude.{◌≡◌, ℕ, Some, List, slice_get};
ghost use Rattle.program_model.specs.declared.kinds.BodyId.{BodyId};
ghost use Rattle.program_model.specs.declared.program.Program.{Program};
ghost use Rattle.program_model.specs.declared.tree.Body.{Body};
ghost use Rattle.program_model.specs.Lookups.{body_at};
ghost use Rattle.program_model.specs.Validity.{IsTypedProgram};
ghost use Rattle.java_control.specs.Remaining.{Todo};
ghost use Rattle.accepted_programs.specs.Paths.{Comes, Move, relation_of};
ghost use Rattle.step_laws.specs.Naming.{HasTargetIn, IsOfItsKind};

/// Each step of a reached control sets a variable of its own body, if any, and names a constructor where it is a `new` and a method where
/// it is a call.
pub fn steps_name_what_is_there()
    ensures { (p : Program) → IsTypedProgram p → (b : BodyId) (x : Body) (k : List Todo) (i : ℕ) (t : Move (List Todo)) → body_at p b ≡ Some x → Comes (relation_of p b) k
        → slice_get ((relation_of p b).next k) i ≡ Some t → HasTargetIn x t.action × IsOfItsKind p t.action }
{}
