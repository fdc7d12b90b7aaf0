//! The program that a table is with the bodies of its source files.

ghost use Rattle.std.specs.Prelude.{◌≡◌, [], IfErr, IfOk, OnOk};
ghost use Rattle.program_model.specs.Validity.{HasBodies, IsValid};
ghost use Rattle.method_bodies.specs.MethodBodies.{body_cases};
ghost use Rattle.java_elaboration.specs.ProgramCases.{program_cases, typed_program};
ghost use Rattle.java_elaboration.specs.Elaborations.{IsProgramOf};
ghost use Rattle.program_elaboration.specs.Elaborations.{IsElaborationStop};
ghost use Rattle.program_elaboration.specs.Tables.{IsTableOf};

use java_elaboration::elaborate_bodies;
use java_syntax::Unit;
use method_bodies::body_refusal;
use program_model::Program;
use rlc_base::Stop;
use std::alloc::Global;

/// The program of the table and of the bodies in its source files: its bodies are typed (JLS 14, 15), and laid into tables. It is
/// valid, and each method of a program class that is not abstract has its body.
///
/// # Errors
///
/// `Refused` with the least refusal of methods whose body is missing or stands where none may, and else with the least of all refusals
/// of the program's members and bodies. Memory may run out.
pub fn elaborate(alloc: Global, table: Program, units: &[Unit]) -> Result<Program, Stop>
    requires { IsTableOf table units.now }
    ensures due { OnOk result (body_cases units.now ≡ []) }
    ensures right { OnOk result (program_cases table units.now ≡ []) }
    ensures program { IfOk result (IsProgramOf table (typed_program table units.now)) }
    ensures valid { IfOk result IsValid }
    ensures bodies { IfOk result HasBodies }
    ensures cause { IfErr result (IsElaborationStop table units.now) }
{
    match body_refusal(units) {
        Some(refusal) => Err(Stop::Refused(refusal)),
        None => elaborate_bodies(alloc, table, units),
    }
}
