//! What holds of a body that is accepted. Each law is the contract of a function that does nothing.

ghost use Rattle.std.specs.Prelude.{◌≡◌, []};
ghost use Rattle.java_typed_trees.specs.StatementTrees.{statements};
ghost use Rattle.java_typed_trees.specs.WellFormedStatements.{AreWellFormedStatements};
ghost use Rattle.java_bodies.specs.SourceClassesMembers.{Environment};
ghost use Rattle.java_bodies.specs.Bodies.{SourceBody, body_cases, body_trees};
ghost use Rattle.java_typing_laws.specs.CatchParameters.{HasCatchTypes};

/// The typed trees of a body in which nothing is refused are well-formed, with the super call and the initialisers of fields with
/// which that of a constructor begins. Any two classes of the program have a least upper bound.
pub fn accepted_body_is_well_formed()
    ensures { (e : Environment) → HasCatchTypes e.program → (b : SourceBody) → body_cases e b ≡ [] → AreWellFormedStatements (statements (body_trees e b)) }
{}
