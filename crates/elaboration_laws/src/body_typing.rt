//! What holds of a body in which nothing is refused. Each law is the contract of a function that does nothing.

ghost use Rattle.std.specs.Prelude.{◌≡◌, List, [], All, map};
ghost use Rattle.program_model.specs.declared.tree.Var.{Var};
ghost use Rattle.program_model.specs.Typing.{IsDeclarable};
ghost use Rattle.program_model.specs.Validity.{HasParameters};
ghost use Rattle.java_typed_trees.specs.StatementTrees.{statements};
ghost use Rattle.java_elaboration.specs.Declarations.{variable_in};
ghost use Rattle.java_elaboration.specs.SourceClassesMembers.{Environment};
ghost use Rattle.java_elaboration.specs.Bodies.{SourceBody, body_cases, body_trees, body_variables_in};
ghost use Rattle.java_typing_laws.specs.TypedStatements.{AreTypedStatementTrees};
ghost use Rattle.elaboration_laws.specs.BodiesOfTables.{HasTypedTable, typing_context};

/// The typed statements of a body are typed, with the super call and the initialisers of fields with which that of a constructor
/// begins (JLS 8.8.7).
pub fn accepted_body_is_typed()
    ensures { (e : Environment) (b : SourceBody) → HasTypedTable e b → (variables : List Var) → map variable_in variables ≡ body_variables_in e b → body_cases e b ≡ [] → AreTypedStatementTrees (typing_context e b variables) b.signature (statements (body_trees e b)) }
{}

/// The variables of a body have types that may be declared, and the first of them are the parameters (JLS 8.4.1).
pub fn accepted_body_has_its_variables()
    ensures declarable { (e : Environment) (b : SourceBody) → HasTypedTable e b → (variables : List Var) → map variable_in variables ≡ body_variables_in e b → body_cases e b ≡ [] → All (λ x. IsDeclarable e.program x.vtype) variables }
    ensures parameters { (e : Environment) (b : SourceBody) → HasTypedTable e b → (variables : List Var) → map variable_in variables ≡ body_variables_in e b → HasParameters variables b.signature.sig.params.items }
{}
