//! The laws. Each is the contract of a function that does nothing.

ghost use Rattle.soundness_laws.specs.Accept.{Accept};
ghost use Rattle.soundness_laws.specs.Safety.{IsMain, IsSafe};
ghost use Rattle.safety_examples.specs.ReopeningPrograms.{reopening, main_method};

/// A program whose `main` makes a socket on which nothing must be called at first, lends it to a method of its own that creates its obligation anew, and closes
/// it, is accepted: `main` owes the call of `close` from then on.
pub fn reopening_is_accepted()
    ensures { Accept reopening }
{}

/// Its `main` runs, so that it has runs.
pub fn reopening_has_main()
    ensures { IsMain reopening main_method }
{}

/// So it is safe in every run, whatever an honest library chooses, up to the first stray exception.
pub fn reopening_is_safe()
    ensures { IsSafe reopening }
{}
