//! The arguments of super calls. The law is the contract of a function that does nothing.

ghost use Rattle.program_model.specs.declared.program.Program.{Program};
ghost use Rattle.acceptance_laws.specs.Programs.{Input, IsProgram};
ghost use Rattle.agreement.specs.SuperArguments.{SuperCallsPassNoThis};

/// No argument of a super call in the program of files refers to `this`, or to a member of it (JLS 8.8.7.1).
pub fn read_program_passes_no_this()
    ensures { (input : Input) (p : Program) → IsProgram input p → SuperCallsPassNoThis p }
{}
