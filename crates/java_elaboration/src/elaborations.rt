//! The program that a table is with the bodies of its source files.

ghost use Rattle.std.specs.Prelude.{◌≡◌, [], All, IfErr, IfOk, OnOk, map};
ghost use Rattle.java_types.specs.ClassNames.{doubles};
ghost use Rattle.java_types.specs.SourceClasses.{all_names};
ghost use Rattle.java_types.specs.ProgramCases.{program_cases, typed_program};
ghost use Rattle.java_types.specs.TypedBodies.{typed_body_of};
ghost use Rattle.java_elaboration.specs.Elaborations.{AreWellFormedUnlessRefused, HasWellFormedStatements, IsElaborationStop, IsProgramOf};

use crate::body_tables::laid_bodies;
use java_syntax::Unit;
use java_types::{BodyTyping, least, program_typing};
use program_bodies::with_bodies;
use program_model::Program;
use rlc_base::{NoMemory, Stop};
use std::alloc::Global;

// The table with typed bodies, each laid into its tables.
fn with_typings(
    alloc: Global,
    table: Program,
    typings: Vec<BodyTyping>,
) -> Result<Program, NoMemory>
    requires { All HasWellFormedStatements (map typed_body_of typings.items) }
    ensures { IfOk result (IsProgramOf table (map typed_body_of typings.items)) }
{
    let bodies = laid_bodies(alloc, typings)?;
    with_bodies(alloc, table, bodies)
}

/// The program of the table and of the bodies in the source files: its bodies are typed (JLS 14, 15), and laid into tables. Each body
/// in which nothing is refused has well-formed statements.
///
/// # Errors
///
/// `Refused` with the least of all refusals of the program's members and bodies, or memory runs out.
pub fn elaborate_bodies(alloc: Global, table: Program, units: &[Unit]) -> Result<Program, Stop>
    requires names { doubles (all_names table units.now) ≡ [] }
    requires well_formed { AreWellFormedUnlessRefused table units.now }
    ensures right { OnOk result (program_cases table units.now ≡ []) }
    ensures program { IfOk result (IsProgramOf table (typed_program table units.now)) }
    ensures cause { IfErr result (IsElaborationStop table units.now) }
{
    let mut refusals = Vec::new(alloc);
    let typings = program_typing(alloc, &table, units, &mut refusals)?;
    match least(&refusals) {
        Some(refusal) => Err(Stop::Refused(refusal)),
        None => Ok(with_typings(alloc, table, typings)?),
    }
}
