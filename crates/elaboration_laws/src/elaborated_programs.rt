//! What holds of the program that a table is with the bodies of its source files. The law is the contract of a function that does
//! nothing.

ghost use Rattle.std.specs.Prelude.{◌≡◌, All, List, []};
ghost use Rattle.java_syntax.specs.declared.declaration_trees.Unit as tree;
ghost use Rattle.program_model.specs.declared.program.Program.{Program};
ghost use Rattle.program_model.specs.Validity.{IsTypedProgram};
ghost use Rattle.java_elaboration.specs.SourceClasses.{source_classes};
ghost use Rattle.java_elaboration.specs.Bodies.{all_bodies};
ghost use Rattle.java_elaboration.specs.ProgramCases.{environment_of, program_cases, typed_program};
ghost use Rattle.java_elaboration.specs.Elaborations.{IsProgramOf};
ghost use Rattle.elaboration_laws.specs.ElaboratedBodies.{HasSingleTrees, IsBodyInTable};

/// The program of a valid table and of the bodies of its source files, in which nothing is refused, is typed: its tables belong
/// together, and its bodies are typed trees (JLS 14, 15).
pub fn elaborated_program_is_typed()
    ensures { (p : Program) (units : List tree.Unit) (q : Program) → IsTypedProgram p → All (IsBodyInTable (environment_of p units)) (all_bodies (environment_of p units) (source_classes p units)) → program_cases p units ≡ [] → IsProgramOf p (typed_program p units) q → HasSingleTrees q → IsTypedProgram q }
{}
