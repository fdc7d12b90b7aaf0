//! The laws. Each is the contract of a function that does nothing.

ghost use Rattle.soundness_laws.specs.Accept.{Accept};
ghost use Rattle.soundness_laws.specs.Safety.{IsMain, IsSafe};
ghost use Rattle.safety_examples.specs.LendingPrograms.{lending, main_method};

/// A program whose `main` lends the resource that it makes to a method of its own, which promises that it closes it, is accepted: `main`
/// owes nothing after that call, and the method keeps its promise.
pub fn lending_is_accepted()
    ensures { Accept lending }
{}

/// Its `main` runs, so that it has runs.
pub fn lending_has_main()
    ensures { IsMain lending main_method }
{}

/// So it is safe in every run, whatever an honest library chooses, up to the first stray exception.
pub fn lending_is_safe()
    ensures { IsSafe lending }
{}
