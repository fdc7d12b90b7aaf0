//! The faults of a program.

ghost use Rattle.std.specs.Prelude.{◌≡◌, ◌<◌, IfErr, IfOk};
ghost use Rattle.flow_rules.specs.WellFormed.{HasSmallInterests};
ghost use Rattle.graph_limits.specs.ListedFields.{HasListedFields};
ghost use Rattle.program_faults.specs.ProgramReports.{IsFaultCount, IsFaultStop, IsFaulty, IsReportText};

use crate::body::check_body;
use fact_pool::Pool;
use program_model::{BodyId, Program};
use rlc_base::{Stop, Text};
use std::alloc::Global;

/// The faults of a program.
#[derive(Drop)]
pub struct ProgramFaults {
    /// The text of their reports.
    pub text: Text,
    /// How many they are, at most 10,000.
    pub count: u32,
}

// The faults of all bodies of a program.
fn check_bodies(alloc: Global, p: &Program, files: &[Text]) -> Result<ProgramFaults, Stop>
    requires interests { HasSmallInterests p.now }
    requires fields { HasListedFields p.now }
    ensures reports { IfOk result (λ x. IsReportText p.now files.now x.count x.text) }
    ensures cause { IfErr result (IsFaultStop p.now) }
{
    let Ok(bodies) = u32::try_from(p.bodies.len()) else {
        return Err(Stop::NoMemory);
    };
    let mut pool = Pool::new(alloc);
    let mut text = Text::new(alloc);
    let mut count = 0;
    'bodies: for number in 0..bodies {
        count = check_body(alloc, p, BodyId(number), files, count, &mut pool, &mut text)?;
    }
    Ok(ProgramFaults { text, count })
}

/// The faults of a program whose annotations are read, with the text of their reports. The bodies are taken by their
/// numbers, which is the order of the files and of the text, and the faults of each in their order: by place, rule and origin.
/// Each report shows a path of the fewest steps. `files` are the names of the files by their numbers.
///
/// # Errors
///
/// `TooMuch` for the first body that passes a limit, with the place of its method: code 63 where more than 65,536 controls are
/// reachable; else 64 where it has more places than a set of places holds; else 65 where paths reach more than 1,000,000 pairs of
/// a control and a fact; else 69 where with this body the faults are more than 10,000. `NoMemory` where memory runs out, for
/// which 4,294,967,296 bodies or more count too.
pub fn check_program(alloc: Global, program: Program, files: &[Text]) -> Result<ProgramFaults, Stop>
    requires interests { HasSmallInterests program }
    requires fields { HasListedFields program }
    ensures count { IfOk result (λ x. IsFaultCount program x.count) }
    ensures text { IfOk result (λ x. IsReportText program files.now x.count x.text) }
    ensures accepted { IfOk result (λ x. x.count ≡ 0 → IsFaulty program → ⊥) }
    ensures leaks { IfOk result (λ x. 0 < x.count → IsFaulty program) }
    ensures cause { IfErr result (IsFaultStop program) }
{
    check_bodies(alloc, &program, files)
}
