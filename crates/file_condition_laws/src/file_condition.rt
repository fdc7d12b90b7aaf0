//! The conditions that files give. Each law is the contract of a function that does nothing.

ghost use Rattle.program_model.specs.declared.program.Program.{Program};
ghost use Rattle.acceptance_laws.specs.Programs.{Input, IsProgram};
ghost use Rattle.agreement.specs.Conditions.{KeepsObligations, MeetsFileConditions};

/// The program of files has a library that stands by itself, there may be objects of the exceptions that the language throws, its class
/// of strings is no class of exceptions and has no obligation, and no argument of a super call in it refers to `this`.
pub fn read_program_meets_conditions()
    ensures { (input : Input) (p : Program) → IsProgram input p → MeetsFileConditions p }
{}

/// In the program of files, where callers of an overridden method own what something must be called on, something must be called on what the
/// overriding method gives, or on no object that it may give: the rules on signatures refuse the rest.
pub fn read_program_keeps_obligations()
    ensures { (input : Input) (p : Program) → IsProgram input p → KeepsObligations p }
{}
