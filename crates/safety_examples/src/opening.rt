//! The laws. Each is the contract of a function that does nothing.

ghost use Rattle.soundness_laws.specs.Accept.{Accept};
ghost use Rattle.soundness_laws.specs.Safety.{IsMain, IsSafe};
ghost use Rattle.safety_examples.specs.OpeningPrograms.{opening};
ghost use Rattle.safety_examples.specs.ReplacingPrograms.{main_method};

/// A program whose constructor stores a resource into the owning field and calls a method on `this` that creates its obligation anew, by closing what the field holds and
/// storing a new resource there, and whose `main` makes an object of the class and closes it, is accepted.
pub fn opening_is_accepted()
    ensures { Accept opening }
{}

/// Its `main` runs, so that it has runs.
pub fn opening_has_main()
    ensures { IsMain opening main_method }
{}

/// So it is safe in every run, whatever an honest library chooses, up to the first stray exception.
pub fn opening_is_safe()
    ensures { IsSafe opening }
{}
