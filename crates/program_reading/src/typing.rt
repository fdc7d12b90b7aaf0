//! The typed program of the trees.

ghost use Rattle.std.specs.Prelude.{All, IfErr, IfOk};
ghost use Rattle.program_model.specs.Validity.{HasBodies, IsValid};
ghost use Rattle.class_table.specs.Methods.{HasFewParameters};
ghost use Rattle.program_reading.specs.TypedPrograms.{IsTyped, IsTypingStop};

use class_table::build_table;
use java_syntax::{Settings, Unit};
use program_elaboration::elaborate;
use program_model::Program;
use rlc_base::Stop;
use std::alloc::Global;

/// The program of the trees with its typed bodies.
///
/// # Errors
///
/// As by `build_table`, and else as by `elaborate`. 2^32 bodies and more count as want of memory.
pub fn typed(
    alloc: Global,
    sections: &[Unit],
    sources: &[Unit],
    settings: &Settings,
) -> Result<Program, Stop>
    ensures typed { IfOk result (IsTyped settings.now sections.now sources.now) }
    ensures valid { IfOk result IsValid }
    ensures bodies { IfOk result HasBodies }
    ensures parameters { IfOk result (λ p. All HasFewParameters p.methods.items) }
    ensures stopped { IfErr result (IsTypingStop settings.now sections.now sources.now) }
{
    let table = build_table(alloc, sources, sections, settings)?;
    elaborate(alloc, table, sources)
}
