//! The laws. Each is the contract of a function that does nothing.

ghost use Rattle.soundness_laws.specs.Accept.{Accept};
ghost use Rattle.soundness_laws.specs.Safety.{IsMain, IsSafe};
ghost use Rattle.safety_examples.specs.ThrowingPrograms.{main_method, throwing};

/// A program whose `main` lends the socket that it makes to a method of its own, which promises that it closes it, also where it throws, is accepted: `main`
/// owes nothing after that call, however it ends, and the method keeps both promises, though `close` may throw.
pub fn throwing_is_accepted()
    ensures { Accept throwing }
{}

/// Its `main` runs, so that it has runs.
pub fn throwing_has_main()
    ensures { IsMain throwing main_method }
{}

/// So it is safe in every run, whatever an honest library chooses, up to the first stray exception.
pub fn throwing_is_safe()
    ensures { IsSafe throwing }
{}
