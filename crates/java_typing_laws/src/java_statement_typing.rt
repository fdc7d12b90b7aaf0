//! What holds of typed statements and of the bodies that are laid from them. Each law is the contract of a function that does nothing.

ghost use Rattle.std.specs.Prelude.{◌≡◌, All, List, Option, [], length};
ghost use Rattle.program_model.specs.declared.kinds.ClassId.{ClassId};
ghost use Rattle.program_model.specs.declared.program.Method.{Method};
ghost use Rattle.program_model.specs.declared.program.Program.{Program};
ghost use Rattle.program_model.specs.declared.tree.Body.{Body};
ghost use Rattle.program_model.specs.declared.tree.Var.{Var};
ghost use Rattle.program_model.specs.Typing.{IsDeclarable};
ghost use Rattle.program_model.specs.Validity.{IsTypedProgram};
ghost use Rattle.java_syntax.specs.StatementTrees as syntax;
ghost use Rattle.java_typed_trees.specs.StatementTrees.{StmtTrees, statements};
ghost use Rattle.java_laying.specs.Bodies.{IsLaid};
ghost use Rattle.java_statement_rules.specs.Contexts.{StatementContext, program_of};
ghost use Rattle.java_bodies.specs.StatementCases.{statements_cases};
ghost use Rattle.java_bodies.specs.StatementTrees.{statement_trees};
ghost use Rattle.java_bodies.specs.VariableCounts.{statements_count};
ghost use Rattle.java_bodies.specs.BodyVariables.{all_variables};
ghost use Rattle.java_typing_laws.specs.TypingContexts.{HasTypedMembers, TypingContext, context_with};
ghost use Rattle.java_typing_laws.specs.Scopes.{HasDeclarableTypes, HaveTypesFrom, IsInMethod, declaring};
ghost use Rattle.java_typing_laws.specs.Tables.{HasFinalString};
ghost use Rattle.java_typing_laws.specs.TypedBodies.{HasTypedTables, IsBodyOfMethod};
ghost use Rattle.java_typing_laws.specs.TypedStatements.{AreTypedStatementTrees};

/// The typed trees of statements in which nothing is refused are typed: each statement and expression in them has what its form
/// asks for (JLS 14, 15). The variables that the statements declare are those of the body from the next number on.
pub fn accepted_statements_are_typed()
    ensures { (c : StatementContext) (variables : List Var) (owner : Option ClassId) (m : Method) → IsInMethod c.surroundings variables owner m → c.result ≡ m.sig.result → (ts : syntax.StmtTrees) → HaveTypesFrom variables c.next_variable (all_variables (declaring c.surroundings) ts) → statements_cases c ts ≡ [] → AreTypedStatementTrees (context_with c.surroundings variables owner) m (statements (statement_trees c ts)) }
{}

/// Where the statements of which a body is laid are typed, each statement and each expression of its tables is typed.
pub fn laid_body_is_typed()
    ensures { (c : TypingContext) (m : Method) (b : Body) (ts : StmtTrees) → IsBodyOfMethod c m b → IsLaid b ts → AreTypedStatementTrees c m ts → HasTypedTables c.program b }
{}

/// Statements in which nothing is refused declare as many variables as are counted, of types that may be declared.
pub fn accepted_variables_are_declarable()
    ensures count { (c : StatementContext) → HasDeclarableTypes (program_of c) c.surroundings.classes c.surroundings.unit → (ts : syntax.StmtTrees) → statements_cases c ts ≡ [] → length (all_variables (declaring c.surroundings) ts) ≡ statements_count ts }
    ensures declarable { (c : StatementContext) → HasDeclarableTypes (program_of c) c.surroundings.classes c.surroundings.unit → (ts : syntax.StmtTrees) → statements_cases c ts ≡ [] → All (λ x. IsDeclarable (program_of c) x.vtype) (all_variables (declaring c.surroundings) ts) }
{}

/// The members of a valid table have types that may be declared, as the typing of bodies asks, where String is final.
pub fn typed_program_has_typed_members()
    ensures { (p : Program) → IsTypedProgram p → HasFinalString p → HasTypedMembers p }
{}
