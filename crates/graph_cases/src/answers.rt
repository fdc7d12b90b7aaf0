// What is given for the method that a section names.

ghost use Rattle.std.specs.Prelude.{IfErr, IfOk};
ghost use Rattle.graph_cases.specs.Answers.{IsGiveFault, IsGiven, IsStopLine};

use case_files::FormFail;
use graph_words::{body_named, graph_answer, refusal_text};
use program_model::Program;
use rlc_base::{NoMemory, Stop, Text};
use std::alloc::Global;

// Why a case has no program.
fn stop_line(alloc: Global, stop: Stop) -> Result<Text, NoMemory>
    ensures { IfOk result (IsStopLine stop) }
{
    match stop {
        Stop::Refused(refusal) => refusal_text(alloc, refusal),
        Stop::TooMuch(refusal) => refusal_text(alloc, refusal),
        Stop::NoMemory => Err(NoMemory),
    }
}

/// The graph of the first body that is named so, with its arcs where they are asked for, or the refusal of the body or of the
/// program.
///
/// # Errors
///
/// `Section` where no body of the program is named so. Memory may run out.
pub fn given(
    alloc: Global,
    program: &Result<Program, Stop>,
    name: &[u8],
    with_arcs: bool,
) -> Result<Text, FormFail>
    ensures given { IfOk result (IsGiven program.now name.now with_arcs) }
    ensures fault { IfErr result (IsGiveFault program.now name.now) }
{
    let p = match program {
        Ok(p) => p,
        Err(stop) => return Ok(stop_line(alloc, *stop)?),
    };
    match body_named(alloc, p, name)? {
        None => Err(FormFail::Section),
        Some(number) => Ok(graph_answer(alloc, p, number, with_arcs)?),
    }
}
