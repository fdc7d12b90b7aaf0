//! What holds of a laid body. The law is the contract of a function that does nothing.

ghost use Rattle.std.specs.Prelude.{◌≡◌, []};
ghost use Rattle.program_model.specs.declared.tree.Body.{Body};
ghost use Rattle.program_model.specs.Validity.{RunsBody};
ghost use Rattle.java_elaboration.specs.SourceClassesMembers.{Environment};
ghost use Rattle.java_elaboration.specs.Bodies.{SourceBody, body_cases};
ghost use Rattle.elaboration_laws.specs.BodiesOfTables.{HasTypedTable};
ghost use Rattle.elaboration_laws.specs.BodiesOfPrograms.{IsTypedBody};
ghost use Rattle.elaboration_laws.specs.LaidBodies.{HasHeadsInTrees, IsLaidFrom};

/// A body that is laid from one of the source files in which nothing is refused is a typed body of the table: each of its statements
/// and expressions is typed (JLS 14, 15), its variables have types that may be declared, and the first of them are the parameters.
pub fn accepted_body_is_typed_body()
    ensures { (e : Environment) (b : SourceBody) → HasTypedTable e b → RunsBody e.program b.signature → body_cases e b ≡ [] → (x : Body) → IsLaidFrom e b x → HasHeadsInTrees x → IsTypedBody e.program x }
{}
