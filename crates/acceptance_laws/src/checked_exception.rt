//! Checked exceptions are caught or declared (JLS 11.2). Each law is the contract of a function that does nothing.

ghost use Rattle.std.specs.Prelude.{◌≡◌, List, []};
ghost use Rattle.java_syntax.specs.declared.declaration_trees.Unit as tree;
ghost use Rattle.program_model.specs.declared.program.Program.{Program};
ghost use Rattle.accepted_programs.specs.Coverage.{CoversItsExceptions};
ghost use Rattle.program_reading.specs.JavaElaborationElaborations.{IsProgramOf};
ghost use Rattle.program_reading.specs.ProgramCases.{program_cases, typed_program};
ghost use Rattle.program_reading.specs.Programs.{Input, IsProgram};
ghost use Rattle.acceptance_laws.specs.SameTables.{HaveSameTables};

/// Where nothing is refused in the source files, no body that is elaborated from them throws a checked exception that is neither caught
/// nor declared, in each program that declares the same classes and methods.
pub fn elaborated_program_covers_its_exceptions()
    ensures { (table : Program) (units : List tree.Unit) (typed p : Program) → program_cases table units ≡ [] → IsProgramOf table (typed_program table units) typed → HaveSameTables table p → p.bodies.items ≡ typed.bodies.items → CoversItsExceptions p }
{}

/// No body of the program of files throws a checked exception that is neither caught nor declared.
pub fn read_program_covers_its_exceptions()
    ensures { (input : Input) (p : Program) → IsProgram input p → CoversItsExceptions p }
{}
