//! When the program of files is accepted. The law is the contract of a function that does nothing.

ghost use Rattle.program_model.specs.declared.program.Program.{Program};
ghost use Rattle.accepted_programs.specs.Accept.{Accept};
ghost use Rattle.program_reading.specs.Programs.{Input, IsProgram};
ghost use Rattle.program_faults.specs.ProgramReports.{IsFaultCount, IsFaulty};

/// The program of files is accepted where its faults are counted, and there is none: it is well formed, no class declares two methods of
/// one signature, what its classes override and leave without a body is as Java asks, its annotations are right, its bodies catch or declare
/// their checked exceptions and pass no limit on places, and no path in a body breaks a rule.
pub fn counted_program_is_accepted()
    ensures { (input : Input) (p : Program) → IsProgram input p → IsFaultCount p 0 → (IsFaulty p → ⊥) → Accept p }
{}

/// In an accepted program the rules derive no fault. (And where its faults are counted, be there none or some, no body stops the check: `counted_program_does_not_stop`. So
/// for one program the cases of a check exclude each other.)
pub fn accepted_program_has_no_fault()
    ensures { (p : Program) → Accept p → IsFaulty p → ⊥ }
{}
