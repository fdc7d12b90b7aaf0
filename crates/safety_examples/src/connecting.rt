//! The laws. Each is the contract of a function that does nothing.

ghost use Rattle.soundness_laws.specs.Accept.{Accept};
ghost use Rattle.soundness_laws.specs.Safety.{IsMain, IsSafe};
ghost use Rattle.safety_examples.specs.ConnectingPrograms.{connecting, main_method};

/// A program whose class makes a socket, on which nothing must be called at first, in its constructor, stores it into an owning field and connects it there, which
/// creates its obligation anew, and whose must-call method closes what the field holds, is accepted, as `main` makes an object of the class and closes it.
pub fn connecting_is_accepted()
    ensures { Accept connecting }
{}

/// Its `main` runs, so that it has runs.
pub fn connecting_has_main()
    ensures { IsMain connecting main_method }
{}

/// So it is safe in every run, whatever an honest library chooses, up to the first stray exception.
pub fn connecting_is_safe()
    ensures { IsSafe connecting }
{}
