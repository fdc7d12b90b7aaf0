//! What holds of a table with bodies. The law is the contract of a function that does nothing.

ghost use Rattle.std.specs.Prelude.{List};
ghost use Rattle.program_model.specs.declared.program.Program.{Program};
ghost use Rattle.program_model.specs.declared.tree.Body.{Body};
ghost use Rattle.program_model.specs.Validity.{IsTypedProgram};
ghost use Rattle.java_elaboration.specs.ProgramBodies.{HasBodies};
ghost use Rattle.elaboration_laws.specs.BodiesOfPrograms.{AreTypedBodies};

/// The program of a valid table and of typed bodies of its methods is typed: its tables belong together, and its bodies are typed
/// trees.
pub fn program_with_bodies_is_typed()
    ensures { (p : Program) (bodies : List Body) (q : Program) → IsTypedProgram p → AreTypedBodies p bodies → HasBodies p bodies q → IsTypedProgram q }
{}
