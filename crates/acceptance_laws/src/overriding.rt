//! What overriding depends on. Each law is the contract of a function that does nothing.

ghost use Rattle.std.specs.Prelude.{◌≡◌, List, []};
ghost use Rattle.program_model.specs.declared.kinds.ClassId.{ClassId};
ghost use Rattle.program_model.specs.declared.program.Program.{Program};
ghost use Rattle.program_model.specs.declared.tree.Body.{Body};
ghost use Rattle.accepted_programs.specs.Cases.{class_cases};
ghost use Rattle.program_bodies.specs.ProgramBodies.{HasBodies};
ghost use Rattle.accepted_programs.specs.Signed.{IsSigned};
ghost use Rattle.program_reading.specs.ProgramCases.{member_cases};
ghost use Rattle.acceptance_laws.specs.SameTables.{HaveSameTables};

/// Programs whose classes and methods are declared alike have the same refusals of overriding methods and of methods without a body
/// (JLS 8.4.8, 8.1.1.1): annotations and bodies have no part in them.
pub fn programs_of_same_tables_have_same_cases()
    ensures { (p q : Program) → HaveSameTables p q → (c : ClassId) → class_cases p c ≡ class_cases q c }
{}

/// A table with bodies, and with its annotations read, declares the same classes and methods.
pub fn signed_program_has_same_tables()
    ensures { (table typed p : Program) (bodies : List Body) → HasBodies table bodies typed → IsSigned typed p → HaveSameTables table p }
{}

/// Where the classes of a table have no such refusal, no number has one.
pub fn accepted_table_has_no_override_cases()
    ensures { (p : Program) → member_cases p ≡ [] → (c : ClassId) → class_cases p c ≡ [] }
{}
