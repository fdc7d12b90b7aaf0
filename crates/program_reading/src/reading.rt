//! The program that the files of a command make.

ghost use Rattle.std.specs.Prelude.{◌-◌, ◌<◌, ◌^◌, All, IfErr, IfOk, length, map};
ghost use Rattle.signed_programs.specs.WellFormed.{HasSmallInterests};
ghost use Rattle.class_table.specs.Methods.{HasFewParameters};
ghost use Rattle.program_reading.specs.Programs.{IsProgram, IsProgramStop};
ghost use Rattle.signed_programs.specs.SignedPrograms.{HasListedFields};

use crate::typing::typed;
use command_trees::front;
use java_syntax::Settings;
use program_model::Program;
use rlc_base::{Stop, Text};
use signed_programs::signed;
use std::alloc::Global;

/// The program that the files of a command make under these settings. `words` are the file words, and `texts` what their files hold,
/// in the same order. A word that ends in `.astub` names a stub file, each other one a Java source. Places name a file by its number
/// in `file_names`.
///
/// # Errors
///
/// The first that refuses: the tokens of all files, their trees, the table, the types, the annotations, and the rules on signatures.
/// Memory may run out, for which 2^32 bodies, and 2^32 - 1 parameters of a method, count too.
pub fn read_program(
    alloc: Global,
    settings: &Settings,
    words: &[&str],
    texts: &[Text],
) -> Result<Program, Stop>
    requires few { length words.now < 2 ^ 31 }
    requires short { All (λ text. length text < 2 ^ 32 - 1) texts.now }
    ensures program { IfOk result (IsProgram (record { settings = settings.now; words = map (λ word. word.now) words.now; texts = texts.now })) }
    ensures parameters { IfOk result (λ p. All HasFewParameters p.methods.items) }
    ensures fields { IfOk result HasListedFields }
    ensures interests { IfOk result HasSmallInterests }
    ensures stopped { IfErr result (IsProgramStop (record { settings = settings.now; words = map (λ word. word.now) words.now; texts = texts.now })) }
{
    let trees = match front(alloc, words, texts) {
        Ok(trees) => trees,
        Err(stop) => return Err(stop),
    };
    match typed(alloc, &trees.sections, &trees.sources, settings) {
        Ok(program) => signed(alloc, program),
        Err(stop) => Err(stop),
    }
}
