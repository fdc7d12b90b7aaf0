//! The laws. Each is the contract of a function that does nothing.

ghost use Rattle.soundness_laws.specs.Safety.{IsSafe};
ghost use Rattle.safety_examples.specs.CarefulPrograms.{careful};

/// That program is accepted, so it is safe in every run, whatever an honest library chooses, up to the first stray exception.
pub fn careful_is_safe()
    ensures { IsSafe careful }
{}
