//! The laws. Each is the contract of a function that does nothing.

ghost use Rattle.soundness_laws.specs.Accept.{Accept};
ghost use Rattle.soundness_laws.specs.Safety.{IsMain, IsSafe};
ghost use Rattle.safety_examples.specs.OwnerPrograms.{holding, main_method};

/// A program whose class keeps a resource in an owning field, has it closed by its must-call method, and is itself made and closed by
/// `main`, is accepted.
pub fn holding_is_accepted()
    ensures { Accept holding }
{}

/// Its `main` runs, so that it has runs.
pub fn holding_has_main()
    ensures { IsMain holding main_method }
{}

/// So it is safe in every run, whatever an honest library chooses, up to the first stray exception.
pub fn holding_is_safe()
    ensures { IsSafe holding }
{}
