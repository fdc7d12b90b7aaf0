//! The laws. Each is the contract of a function that does nothing.

ghost use Rattle.soundness_laws.specs.Accept.{Accept};
ghost use Rattle.soundness_laws.specs.Safety.{IsMain, IsSafe};
ghost use Rattle.safety_examples.specs.ReplacingPrograms.{main_method, replacing};

/// A program whose class has a method that closes what the owning field holds and stores a new resource there, by which it creates the obligation of its object anew,
/// and whose `main` makes an object of the class, closes it, reopens it, and closes it again, is accepted: `main` owes the call of `close` once more.
pub fn replacing_is_accepted()
    ensures { Accept replacing }
{}

/// Its `main` runs, so that it has runs.
pub fn replacing_has_main()
    ensures { IsMain replacing main_method }
{}

/// So it is safe in every run, whatever an honest library chooses, up to the first stray exception.
pub fn replacing_is_safe()
    ensures { IsSafe replacing }
{}
