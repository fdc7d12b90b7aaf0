//! Where steps of valid programs stand. The law is the contract of a function that does nothing.

ghost use Rattle.std.specs.Prelude.{◌≡◌, ℕ, Some, List, slice_get};
ghost use Rattle.program_model.specs.declared.kinds.BodyId.{BodyId};
ghost use Rattle.program_model.specs.declared.program.Program.{Program};
ghost use Rattle.program_model.specs.declared.tree.Body.{Body};
ghost use Rattle.program_model.specs.Lookups.{body_at};
ghost use Rattle.program_model.specs.Validity.{IsTypedProgram};
ghost use Rattle.java_control.specs.Remaining.{Todo};
ghost use Rattle.accepted_programs.specs.Paths.{Comes, Move, relation_of};
ghost use Rattle.step_laws.specs.Constructors.{CallsSuperClass, MakesConcrete, NamesInstance, StandsInBody, StoresAssignedField, StoresOwnField};

/// Each step of a reached control that calls a super constructor stands in a constructor, and calls one of the class that its own class
/// extends (JLS 8.8.7.1); each that stores into an owning field of `this` stands in the class that declares the field, in an instance method or a constructor.
pub fn steps_have_their_place()
    ensures { (p : Program) → IsTypedProgram p → (b : BodyId) (x : Body) (k : List Todo) (i : ℕ) (t : Move (List Todo)) → body_at p b ≡ Some x → Comes (relation_of p b) k
        → slice_get ((relation_of p b).next k) i ≡ Some t → CallsSuperClass p x t.action × StoresOwnField p x t.action }
{}

/// Each step of a reached control that makes an object makes one of a class that is not abstract (JLS 15.9.1).
pub fn made_objects_are_concrete()
    ensures { (p : Program) → IsTypedProgram p → (b : BodyId) (x : Body) (k : List Todo) (i : ℕ) (t : Move (List Todo)) → body_at p b ≡ Some x → Comes (relation_of p b) k
        → slice_get ((relation_of p b).next k) i ≡ Some t → MakesConcrete p t.action }
{}

/// Each step of a reached control that calls on an object names an instance method (JLS 15.12.3).
pub fn calls_on_objects_name_instance_methods()
    ensures { (p : Program) → IsTypedProgram p → (b : BodyId) (x : Body) (k : List Todo) (i : ℕ) (t : Move (List Todo)) → body_at p b ≡ Some x → Comes (relation_of p b) k
        → slice_get ((relation_of p b).next k) i ≡ Some t → NamesInstance p t.action }
{}

/// Each step of a reached control that calls a super constructor is that of a super call among the body's own statements (JLS 8.8.7).
pub fn super_calls_stand_in_bodies()
    ensures { (p : Program) → IsTypedProgram p → (b : BodyId) (x : Body) (k : List Todo) (i : ℕ) (t : Move (List Todo)) → body_at p b ≡ Some x → Comes (relation_of p b) k
        → slice_get ((relation_of p b).next k) i ≡ Some t → StandsInBody x t.action }
{}

/// Each step of a reached control that stores into a field, other than by `=` into an owning field of `this` in the class that declares it, does so
/// where an expression of the body assigns that field: one of `this`, where it is by another operator than `=` (JLS 15.26, 15.14.2, 15.15.1).
pub fn stored_fields_are_assigned()
    ensures { (p : Program) → IsTypedProgram p → (b : BodyId) (x : Body) (k : List Todo) (i : ℕ) (t : Move (List Todo)) → body_at p b ≡ Some x → Comes (relation_of p b) k
        → slice_get ((relation_of p b).next k) i ≡ Some t → StoresAssignedField p x t.action }
{}
