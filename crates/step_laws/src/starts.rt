//! With what constructors begin. The law is the contract of a function that does nothing.

ghost use Rattle.std.specs.Prelude.{◌≡◌, ℕ, false, Some, List, slice_get};
ghost use Rattle.program_model.specs.declared.kinds.BodyId.{BodyId};
ghost use Rattle.program_model.specs.declared.kinds.FieldId.{FieldId};
ghost use Rattle.program_model.specs.declared.program.Program.{Program};
ghost use Rattle.program_model.specs.Validity.{IsTypedProgram};
ghost use Rattle.java_control.specs.Remaining.{Todo};
ghost use Rattle.control_actions.specs.declared.action.Action.TheVariants as actions;
ghost use Rattle.accepted_programs.specs.Paths.{Comes, Move, relation_of};
ghost use Rattle.step_laws.specs.Starts.{LeadsTo, is_super};
ghost use Rattle.step_laws.specs.SuperArguments.{SuperCallsPassNoThis};

/// Behind a store into an owning field of `this` no step calls a constructor of the super class: that call is the first statement of a
/// constructor (JLS 8.8.7), and its arguments refer to no field of `this` (JLS 8.8.7.1).
pub fn stores_follow_super_call()
    ensures { (p : Program) → IsTypedProgram p → SuperCallsPassNoThis p → (b : BodyId) (k l : List Todo) (i j : ℕ) (t u : Move (List Todo)) (f : FieldId) (d : ℕ)
        → Comes (relation_of p b) k → slice_get ((relation_of p b).next k) i ≡ Some t → t.action ≡ actions.PutOwn f d
        → LeadsTo (relation_of p b) t.to l → slice_get ((relation_of p b).next l) j ≡ Some u → is_super u.action ≡ false }
{}
