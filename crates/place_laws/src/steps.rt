//! What the steps of valid programs take and give. The law is the contract of a function that does nothing.

ghost use Rattle.std.specs.Prelude.{◌≡◌, ℕ, Some, List, slice_get};
ghost use Rattle.program_model.specs.declared.kinds.BodyId.{BodyId};
ghost use Rattle.program_model.specs.declared.program.Program.{Program};
ghost use Rattle.program_model.specs.declared.tree.Body.{Body};
ghost use Rattle.program_model.specs.Lookups.{body_at};
ghost use Rattle.program_model.specs.Validity.{IsTypedProgram};
ghost use Rattle.java_control.specs.Remaining.{Todo};
ghost use Rattle.step_laws.specs.Paths.{Comes, Move, relation_of};
ghost use Rattle.place_laws.specs.Typed.{MovesLocals, NamesMembers};

/// Each step of a reached control copies and moves to variables and temps alone, and empties no other place; a field that it reads is there,
/// a call on `this`, written or implied, names a method of the class of the body or of one above it, and a call by `super` one that the class of the body does not declare.
pub fn steps_are_typed()
    ensures { (p : Program) → IsTypedProgram p → (b : BodyId) (x : Body) (k : List Todo) (i : ℕ) (t : Move (List Todo)) → body_at p b ≡ Some x → Comes (relation_of p b) k
        → slice_get ((relation_of p b).next k) i ≡ Some t → MovesLocals t.action × NamesMembers p x t.action }
{}
