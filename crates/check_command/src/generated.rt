//! The mode `gen`.

ghost use Rattle.std.specs.Prelude.{◌≡◌, ◌∷◌, [], ◌≤◌, ◌<◌, length, map, IfOk};
ghost use Rattle.outside.specs.Files.{max_file};
ghost use Rattle.program_generator.specs.Generation.{program_text};
ghost use Rattle.rlc_base.specs.declared.code.Code.TheVariants as refused;
ghost use Rattle.program_model.specs.declared.program.Program.{Program as DeclaredProgram};
ghost use Rattle.command_answers.specs.Texts.{placeless_text};
ghost use Rattle.command_answers.specs.declared.answers.Outcome.TheVariants as outcomes;
ghost use Rattle.command_inputs.specs.Halts.{IfAnswer, IfHalted};
ghost use Rattle.command_inputs.specs.Inputs.{texts_of};
ghost use Rattle.command_programs.specs.Programs.{IsShort};
ghost use Rattle.check_command.specs.Checks.{AreFaults, IsUnchecked};
ghost use Rattle.check_command.specs.Generated.{IsCountedAnswer, IsGeneratedAnswer, generated_files, generated_name};

use crate::faults::file_faults;
use command_answers::{Answer, Outcome, placeless};
use command_inputs::{CommandTexts, Halt};
use outside::MAX_FILE;
use program_faults::ProgramFaults;
use program_generator::generate;
use rlc_base::{Code, NoMemory, Text};
use side_commands::counts_answer;
use std::alloc::Global;

// The name of the generated file.
#[tactic(auto, unfolding(crate::specs::Generated::generated_name))]
fn generated_name() -> &'static str
    ensures { result.now ≡ generated_name }
{
    "Gen.java"
}

// The files of a check of the generated program.
fn generated_files<'a>(names: &'a [&'a str], texts: &'a [Text]) -> CommandTexts<'a>
    requires { map (λ name. name.now) names.now ≡ generated_name ∷ [] }
    ensures { texts_of result ≡ generated_files texts.entry.now }
{
    let settings = None;
    let choices = None;
    CommandTexts {
        settings,
        choices,
        names,
        texts,
    }
}

// The faults of the generated program.
fn generated_faults(alloc: Global, texts: &[Text]) -> Result<ProgramFaults, Halt>
    requires { IsShort (generated_files texts.now) }
    ensures faults { IfOk result (λ x. (p : DeclaredProgram) × AreFaults (generated_files texts.now) p x.count x.text) }
    ensures unchecked { IfHalted result (IsUnchecked (generated_files texts.now)) }
{
    let names = [generated_name()];
    file_faults(alloc, generated_files(&names, texts))
}

// The answer for a generated program of so many methods.
fn counted_answer(alloc: Global, methods: u32, texts: &[Text]) -> Result<Answer, Halt>
    requires { IsShort (generated_files texts.now) }
    ensures { IfAnswer result (IsCountedAnswer methods texts.now) }
{
    match generated_faults(alloc, texts) {
        Ok(faults) => Ok(counts_answer(alloc, methods, faults.count)?),
        Err(halt) => Err(halt),
    }
}

// The answer where the generated file is longer than a file may be.
fn too_big(alloc: Global) -> Result<Answer, NoMemory>
    ensures outcome { IfOk result (λ answer. answer.outcome ≡ outcomes.Limit) }
    ensures text { IfOk result (λ answer. answer.text ≡ placeless_text generated_name refused.FileTooBig) }
{
    let outcome = Outcome::Limit;
    let text = placeless(alloc, generated_name(), Code::FileTooBig)?;
    Ok(Answer { outcome, text })
}

/// The answer of `gen` for the program of a seed and so many methods: `Accepted` where the flow rules derive no fault in it, and else
/// `Leaks`. The text is the lines `methods M` and `faults F`. `Refused` or `Limit` as by `check` for the one file `Gen.java` under the
/// default settings.
pub fn generated_answer(alloc: Global, seed: u32, methods: u32) -> Result<Answer, NoMemory>
    ensures { IfOk result (IsGeneratedAnswer seed methods) }
{
    let text = generate(alloc, seed, methods)?;
    if text.bytes().len() > MAX_FILE {
        return too_big(alloc);
    }
    let texts = [text];
    match counted_answer(alloc, methods, &texts) {
        Ok(answer) => Ok(answer),
        Err(Halt::Answered(answer)) => Ok(answer),
        Err(Halt::NoMemory) => Err(NoMemory),
    }
}
