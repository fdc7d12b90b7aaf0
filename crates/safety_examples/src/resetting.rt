//! The laws. Each is the contract of a function that does nothing.

ghost use Rattle.soundness_laws.specs.Accept.{Accept};
ghost use Rattle.soundness_laws.specs.Safety.{IsMain, IsSafe};
ghost use Rattle.safety_examples.specs.ResettingPrograms.{main_method, resetting};

/// A program that makes a socket on which nothing must be called at first, connects it by a method of the library that creates its obligation
/// anew, and gives it to a holder, whose constructor connects it once more before it keeps it in an owning field, and whose must-call method has it closed,
/// is accepted.
pub fn resetting_is_accepted()
    ensures { Accept resetting }
{}

/// Its `main` runs, so that it has runs.
pub fn resetting_has_main()
    ensures { IsMain resetting main_method }
{}

/// So it is safe in every run, whatever an honest library chooses, up to the first stray exception.
pub fn resetting_is_safe()
    ensures { IsSafe resetting }
{}
