//! The options and files of each mode, as `clap` commands.

ghost use Rattle.std.specs.Prelude.{◌≡◌, codes, false, true, IfOk};
ghost use Rattle.clap.specs.Words.{app_of, is_simple_and_free, rule_of};
ghost use Rattle.command_words.specs.Modes.{bare_app, certify_app, check_app, files_rule, generate_app, needed_rule, option_rule, run_app, settings_app, verify_app, with_inputs};

use clap::builder::ValueParser;
use clap::{Arg, ArgAction, Command};
use std::alloc::{AllocError, Global};

// An option with one value, which is not empty. It may be given at most once.
fn option_named<'a>(alloc: Global, name: &'a str) -> Arg<'a>
    ensures rule { rule_of result ≡ option_rule name.entry.now }
    ensures local { result.global ≡ false }
{
    Arg::new(alloc, name)
        .long(name)
        .action(ArgAction::Set)
        .value_parser(ValueParser::NonEmptyString)
}

// Such an option that has to be given.
fn needed_option<'a>(alloc: Global, name: &'a str) -> Arg<'a>
    ensures rule { rule_of result ≡ needed_rule name.entry.now }
    ensures local { result.global ≡ false }
{
    option_named(alloc, name).required(true)
}

// The files, of which there is one at least.
fn file_words<'a>(alloc: Global) -> Arg<'a>
    ensures rule { rule_of result ≡ files_rule }
    ensures local { result.global ≡ false }
{
    Arg::new(alloc, "files")
        .action(ArgAction::Append)
        .num_args(1..)
        .required(true)
}

// A mode without options: the words are those behind it, and there is no help of `clap`'s own.
fn bare<'a>(alloc: Global, name: &'a str) -> Command<'a>
    ensures { app_of result ≡ bare_app name.entry.now }
{
    Command::new(alloc, name)
        .no_binary_name(true)
        .disable_help_flag(true)
}

// The settings file and the files, behind the options of a mode.
fn with_inputs<'a>(alloc: Global, mode: Command<'a>) -> Result<Command<'a>, AllocError>
    ensures { IfOk result (λ command. app_of command ≡ with_inputs (app_of mode.entry)) }
{
    let mode = mode.arg(option_named(alloc, "config"))?;
    let mode = mode.arg(file_words(alloc))?;
    Ok(mode)
}

/// The options and files of `check`.
#[tactic(auto, unfolding(crate::specs::Modes::check_app))]
pub fn check_mode<'a>(alloc: Global) -> Result<Command<'a>, AllocError>
    ensures app { IfOk result (λ command. app_of command ≡ check_app) }
    ensures simple { IfOk result (λ command. is_simple_and_free (app_of command) ≡ true) }
{
    let mode = with_inputs(alloc, bare(alloc, "check"))?;
    Ok(mode)
}

/// The options and files of `run`.
#[tactic(auto, unfolding(crate::specs::Modes::run_app))]
pub fn run_mode<'a>(alloc: Global) -> Result<Command<'a>, AllocError>
    ensures app { IfOk result (λ command. app_of command ≡ run_app) }
    ensures simple { IfOk result (λ command. is_simple_and_free (app_of command) ≡ true) }
{
    let mode = bare(alloc, "run");
    let mode = mode.arg(needed_option(alloc, "main"))?;
    let mode = mode.arg(option_named(alloc, "choices"))?;
    let mode = mode.arg(option_named(alloc, "steps"))?;
    let mode = with_inputs(alloc, mode)?;
    Ok(mode)
}

/// The options of `gen`.
#[tactic(auto, unfolding(crate::specs::Modes::generate_app))]
pub fn generate_mode<'a>(alloc: Global) -> Result<Command<'a>, AllocError>
    ensures app { IfOk result (λ command. app_of command ≡ generate_app) }
    ensures simple { IfOk result (λ command. is_simple_and_free (app_of command) ≡ true) }
{
    let mode = bare(alloc, "gen");
    let mode = mode.arg(needed_option(alloc, "seed"))?;
    let mode = mode.arg(needed_option(alloc, "methods"))?;
    Ok(mode)
}

/// The option of `settings`.
#[tactic(auto, unfolding(crate::specs::Modes::settings_app))]
pub fn settings_mode<'a>(alloc: Global) -> Result<Command<'a>, AllocError>
    ensures app { IfOk result (λ command. app_of command ≡ settings_app) }
    ensures simple { IfOk result (λ command. is_simple_and_free (app_of command) ≡ true) }
{
    let mode = bare(alloc, "settings");
    let mode = mode.arg(needed_option(alloc, "config"))?;
    Ok(mode)
}

/// The options and files of `certify`.
#[tactic(auto, unfolding(crate::specs::Modes::certify_app))]
pub fn certify_mode<'a>(alloc: Global) -> Result<Command<'a>, AllocError>
    ensures app { IfOk result (λ command. app_of command ≡ certify_app) }
    ensures simple { IfOk result (λ command. is_simple_and_free (app_of command) ≡ true) }
{
    let mode = with_inputs(alloc, bare(alloc, "certify"))?;
    Ok(mode)
}

/// The options and files of `verify`.
#[tactic(auto, unfolding(crate::specs::Modes::verify_app))]
pub fn verify_mode<'a>(alloc: Global) -> Result<Command<'a>, AllocError>
    ensures app { IfOk result (λ command. app_of command ≡ verify_app) }
    ensures simple { IfOk result (λ command. is_simple_and_free (app_of command) ≡ true) }
{
    let mode = bare(alloc, "verify");
    let mode = mode.arg(needed_option(alloc, "cert"))?;
    let mode = with_inputs(alloc, mode)?;
    Ok(mode)
}
