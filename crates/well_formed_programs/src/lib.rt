//! Which programs are well formed: those whose annotations are read, where no rule on signatures refuses them.
#![tactic(auto)]

mod laws;

pub use laws::{signed_program_is_signed, signed_program_is_well_formed};
