//! What holds of statements that are accepted. Each law is the contract of a function that does nothing.

ghost use Rattle.std.specs.Prelude.{◌≡◌, []};
ghost use Rattle.program_model.specs.declared.program.Program.{Program};
ghost use Rattle.program_model.specs.Validity.{IsTypedProgram};
ghost use Rattle.java_syntax.specs.StatementTrees.{StmtTrees};
ghost use Rattle.java_typed_trees.specs.StatementTrees.{statements};
ghost use Rattle.java_typed_trees.specs.WellFormedStatements.{AreWellFormedStatements};
ghost use Rattle.java_statement_parts.specs.Accepted.{HaveTypes};
ghost use Rattle.java_statement_rules.specs.Contexts.{StatementContext, locals_of, program_of};
ghost use Rattle.java_bodies.specs.StatementCases.{statements_cases};
ghost use Rattle.java_bodies.specs.StatementTrees.{statement_trees};
ghost use Rattle.java_typing_laws.specs.CatchParameters.{HasCatchTypes};

/// The typed trees of statements in which nothing is refused are well-formed: each statement and expression in them is typed, and
/// has the parts that its form takes. The variables in scope have types, and any two classes of the program have a least upper
/// bound.
pub fn accepted_statements_are_well_formed()
    ensures { (c : StatementContext) → HaveTypes (locals_of c) → HasCatchTypes (program_of c) → (ts : StmtTrees) → statements_cases c ts ≡ [] → AreWellFormedStatements (statements (statement_trees c ts)) }
{}

/// Any two classes of a valid program have a least upper bound (JLS 4.10.4), which the parameter of a catch clause over several
/// classes takes as its type (JLS 14.20).
pub fn valid_program_has_catch_types()
    ensures { (p : Program) → IsTypedProgram p → HasCatchTypes p }
{}
