//! The laws. Each is the contract of a function that does nothing.

ghost use Rattle.soundness_laws.specs.Accept.{Accept};
ghost use Rattle.soundness_laws.specs.Safety.{IsMain, IsSafe};
ghost use Rattle.safety_examples.specs.AliasPrograms.{aliasing, main_method};

/// A program whose `main` passes the resource that it makes through a method of its own, which returns its aliased argument, and
/// closes what it gets back, is accepted: the result is the resource, so that `main` owes nothing after that.
pub fn aliasing_is_accepted()
    ensures { Accept aliasing }
{}

/// Its `main` runs, so that it has runs.
pub fn aliasing_has_main()
    ensures { IsMain aliasing main_method }
{}

/// So it is safe in every run, whatever an honest library chooses, up to the first stray exception.
pub fn aliasing_is_safe()
    ensures { IsSafe aliasing }
{}
