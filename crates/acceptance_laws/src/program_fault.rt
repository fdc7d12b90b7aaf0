//! What is told of a program is determined by the program. Each law is the contract of a function that does nothing.

ghost use Rattle.std.specs.Prelude.{◌≡◌, ℕ};
ghost use Rattle.accepted_programs.specs.Paths.{FitsPlaces, relation_of};
ghost use Rattle.program_faults.specs.ListedFields.{HasListedFields};
ghost use Rattle.program_faults.specs.ProgramReports.{IsFaultCount, IsFirstStop};

use program_model::{BodyId, Program};
use rlc_base::Refusal;

/// A program has one number of faults.
pub fn fault_count_is_one()
    ensures { (p : Program) (m n : ℕ) → IsFaultCount p m → IsFaultCount p n → m ≡ n }
{}

/// No body stops the check of a program that has a number of faults.
pub fn counted_program_does_not_stop()
    ensures { (p : Program) (n : ℕ) (r : Refusal) → IsFaultCount p n → IsFirstStop p r → ⊥ }
{}

/// The check of a program stops with one refusal.
pub fn first_stop_is_one()
    ensures { (p : Program) (r q : Refusal) → IsFirstStop p r → IsFirstStop p q → r ≡ q }
{}

/// In a program that has a number of faults, sets of places have room for what the steps of paths name. Classes list their fields.
pub fn counted_program_has_room()
    ensures { (p : Program) (n : ℕ) → HasListedFields p → IsFaultCount p n → (b : BodyId) → FitsPlaces p b (relation_of p b) }
{}
