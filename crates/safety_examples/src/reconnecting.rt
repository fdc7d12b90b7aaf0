//! The laws. Each is the contract of a function that does nothing.

ghost use Rattle.soundness_laws.specs.Accept.{Accept};
ghost use Rattle.soundness_laws.specs.Safety.{IsMain, IsSafe};
ghost use Rattle.safety_examples.specs.ReconnectingPrograms.{main_method, reconnecting};

/// A program whose class has a method that creates the obligation of its object anew, by connecting the socket that the owning field holds, and whose `main` makes
/// an object of the class, closes it, connects it, and closes it again, is accepted: `main` owes the call of `close` once more.
pub fn reconnecting_is_accepted()
    ensures { Accept reconnecting }
{}

/// Its `main` runs, so that it has runs.
pub fn reconnecting_has_main()
    ensures { IsMain reconnecting main_method }
{}

/// So it is safe in every run, whatever an honest library chooses, up to the first stray exception.
pub fn reconnecting_is_safe()
    ensures { IsSafe reconnecting }
{}
