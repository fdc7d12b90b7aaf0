//! The laws. Each is the contract of a function that does nothing.

ghost use Rattle.soundness_laws.specs.Accept.{Accept};
ghost use Rattle.soundness_laws.specs.Safety.{IsMain, IsSafe};
ghost use Rattle.safety_examples.specs.WrappingPrograms.{main_method, wrapping};

/// A program whose class keeps the aliased argument of its constructor in an owning field, has it closed by its must-call method, and whose `main`
/// makes a resource and an object of this class of it, and closes that object alone, is accepted: both are one resource.
pub fn wrapping_is_accepted()
    ensures { Accept wrapping }
{}

/// Its `main` runs, so that it has runs.
pub fn wrapping_has_main()
    ensures { IsMain wrapping main_method }
{}

/// So it is safe in every run, whatever an honest library chooses, up to the first stray exception.
pub fn wrapping_is_safe()
    ensures { IsSafe wrapping }
{}
