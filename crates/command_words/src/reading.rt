//! Reading the words of the command.

ghost use Rattle.std.specs.Prelude.{◌≡◌, codes, map, string_bytes};
ghost use Rattle.clap.specs.Words.{first_of, found_of, rows_of};
ghost use Rattle.command_words.specs.Modes.{certify_app, check_app, generate_app, run_app, settings_app, verify_app};
ghost use Rattle.command_words.specs.Requests.{Finds, request_of_mode, certify_request, check_request, generate_request, input_names, input_names_in, number_at, request_in, request_of, run_behind, run_request, settings_request, steps_or_default, verify_behind, verify_request};

use crate::commands::{Command, Inputs, WordsStop};
use crate::modes::{certify_mode, check_mode, generate_mode, run_mode, settings_mode, verify_mode};
use crate::numbers::number_up_to;
use crate::parsing::{files_of, parse, value_of};
use clap::ArgMatches;
use std::alloc::Global;

/// The most steps that a run may be asked to take.
const MOST_STEPS: u32 = 10_000_000;

/// The steps of a run where none are asked for.
const STEPS: u32 = 1_000_000;

/// The greatest seed of a generated program.
const MOST_SEED: u32 = 2_147_483_647;

/// The most methods of a generated program.
const MOST_METHODS: u32 = 5_000;

// The settings file and the files.
fn inputs_of<'a>(alloc: Global, matches: &ArgMatches<'a>) -> Result<Inputs<'a>, WordsStop>
    ensures { Finds input_names (input_names_in (rows_of (found_of matches.now))) result }
{
    let Some(files) = files_of(matches) else {
        return Err(WordsStop::Usage);
    };
    let files = files.to_vec(alloc)?;
    let settings = value_of(matches, "config");
    Ok(Inputs { settings, files })
}

// The most steps of a run.
fn steps_of(matches: &ArgMatches<'_>) -> Option<u32>
    ensures { result ≡ steps_or_default (first_of (codes "steps") (rows_of (found_of matches.now))) }
{
    match value_of(matches, "steps") {
        None => Some(STEPS),
        Some(text) => number_up_to(MOST_STEPS, text),
    }
}

// The number that an option gives.
fn number_at(matches: &ArgMatches<'_>, most: u32, name: &str) -> Option<u32>
    ensures { result ≡ number_at most name.now (rows_of (found_of matches.now)) }
{
    match value_of(matches, name) {
        None => None,
        Some(text) => number_up_to(most, text),
    }
}

fn check_command<'a>(alloc: Global, matches: &ArgMatches<'a>) -> Result<Command<'a>, WordsStop>
    ensures { Finds request_of (check_request (rows_of (found_of matches.now))) result }
{
    match inputs_of(alloc, matches) {
        Ok(inputs) => Ok(Command::Check(inputs)),
        Err(stop) => Err(stop),
    }
}

// A run of this class with so many steps, where its files are there.
fn run_of<'a>(
    alloc: Global,
    matches: &ArgMatches<'a>,
    main: &'a str,
    steps: u32,
) -> Result<Command<'a>, WordsStop>
    ensures { Finds request_of (run_behind main.entry.now steps (rows_of (found_of matches.now))) result }
{
    let choices = value_of(matches, "choices");
    match inputs_of(alloc, matches) {
        Ok(inputs) => Ok(Command::Run {
            main,
            choices,
            steps,
            inputs,
        }),
        Err(stop) => Err(stop),
    }
}

fn run_command<'a>(alloc: Global, matches: &ArgMatches<'a>) -> Result<Command<'a>, WordsStop>
    ensures { Finds request_of (run_request (rows_of (found_of matches.now))) result }
{
    let Some(main) = value_of(matches, "main") else {
        return Err(WordsStop::Usage);
    };
    let Some(steps) = steps_of(matches) else {
        return Err(WordsStop::Usage);
    };
    run_of(alloc, matches, main, steps)
}

fn generate_command<'a>(matches: &ArgMatches<'a>) -> Result<Command<'a>, WordsStop>
    ensures { Finds request_of (generate_request (rows_of (found_of matches.now))) result }
{
    let Some(seed) = number_at(matches, MOST_SEED, "seed") else {
        return Err(WordsStop::Usage);
    };
    let Some(methods) = number_at(matches, MOST_METHODS, "methods") else {
        return Err(WordsStop::Usage);
    };
    Ok(Command::Generate { seed, methods })
}

fn settings_command<'a>(matches: &ArgMatches<'a>) -> Result<Command<'a>, WordsStop>
    ensures { Finds request_of (settings_request (rows_of (found_of matches.now))) result }
{
    match value_of(matches, "config") {
        Some(file) => Ok(Command::Settings { file }),
        None => Err(WordsStop::Usage),
    }
}

fn certify_command<'a>(alloc: Global, matches: &ArgMatches<'a>) -> Result<Command<'a>, WordsStop>
    ensures { Finds request_of (certify_request (rows_of (found_of matches.now))) result }
{
    match inputs_of(alloc, matches) {
        Ok(inputs) => Ok(Command::Certify(inputs)),
        Err(stop) => Err(stop),
    }
}

// The check of this certificate, where its files are there.
fn verify_of<'a>(
    alloc: Global,
    matches: &ArgMatches<'a>,
    certificate: &'a str,
) -> Result<Command<'a>, WordsStop>
    ensures { Finds request_of (verify_behind certificate.entry.now (rows_of (found_of matches.now))) result }
{
    match inputs_of(alloc, matches) {
        Ok(inputs) => Ok(Command::Verify {
            certificate,
            inputs,
        }),
        Err(stop) => Err(stop),
    }
}

fn verify_command<'a>(alloc: Global, matches: &ArgMatches<'a>) -> Result<Command<'a>, WordsStop>
    ensures { Finds request_of (verify_request (rows_of (found_of matches.now))) result }
{
    match value_of(matches, "cert") {
        Some(certificate) => verify_of(alloc, matches, certificate),
        None => Err(WordsStop::Usage),
    }
}

fn read_check<'a>(alloc: Global, words: &'a [String]) -> Result<Command<'a>, WordsStop>
    ensures { Finds request_of (request_of_mode check_app check_request (map string_bytes words.entry.now)) result }
{
    let mode = check_mode(alloc)?;
    match parse(mode, words) {
        Ok(matches) => check_command(alloc, &matches),
        Err(stop) => Err(stop),
    }
}

fn read_run<'a>(alloc: Global, words: &'a [String]) -> Result<Command<'a>, WordsStop>
    ensures { Finds request_of (request_of_mode run_app run_request (map string_bytes words.entry.now)) result }
{
    let mode = run_mode(alloc)?;
    match parse(mode, words) {
        Ok(matches) => run_command(alloc, &matches),
        Err(stop) => Err(stop),
    }
}

fn read_generate<'a>(alloc: Global, words: &'a [String]) -> Result<Command<'a>, WordsStop>
    ensures { Finds request_of (request_of_mode generate_app generate_request (map string_bytes words.entry.now)) result }
{
    let mode = generate_mode(alloc)?;
    match parse(mode, words) {
        Ok(matches) => generate_command(&matches),
        Err(stop) => Err(stop),
    }
}

fn read_settings<'a>(alloc: Global, words: &'a [String]) -> Result<Command<'a>, WordsStop>
    ensures { Finds request_of (request_of_mode settings_app settings_request (map string_bytes words.entry.now)) result }
{
    let mode = settings_mode(alloc)?;
    match parse(mode, words) {
        Ok(matches) => settings_command(&matches),
        Err(stop) => Err(stop),
    }
}

fn read_certify<'a>(alloc: Global, words: &'a [String]) -> Result<Command<'a>, WordsStop>
    ensures { Finds request_of (request_of_mode certify_app certify_request (map string_bytes words.entry.now)) result }
{
    let mode = certify_mode(alloc)?;
    match parse(mode, words) {
        Ok(matches) => certify_command(alloc, &matches),
        Err(stop) => Err(stop),
    }
}

fn read_verify<'a>(alloc: Global, words: &'a [String]) -> Result<Command<'a>, WordsStop>
    ensures { Finds request_of (request_of_mode verify_app verify_request (map string_bytes words.entry.now)) result }
{
    let mode = verify_mode(alloc)?;
    match parse(mode, words) {
        Ok(matches) => verify_command(alloc, &matches),
        Err(stop) => Err(stop),
    }
}

/// What the words of the command ask for. The first names the mode, `check`, `run`, `gen`, `settings`, `certify` or `verify`, and
/// the rest are its options and files. `Usage` exactly where the words are none of these: another mode or none, an option that the mode
/// does not have, one that stands twice or lacks its value, one or a file that has to be there and is not, a word that is
/// empty or a dash alone, an option whose value is empty, or a number that is not 1 to 10 digits, or too large.
/// `--` ends the options; `--option=VALUE` and `--option VALUE` are the same.
pub fn read_words<'a>(alloc: Global, words: &'a [String]) -> Result<Command<'a>, WordsStop>
    ensures { Finds request_of (request_in (map string_bytes words.entry.now)) result }
{
    let [mode, rest @ ..] = words else {
        return Err(WordsStop::Usage);
    };
    match mode.as_str() {
        "check" => read_check(alloc, rest),
        "run" => read_run(alloc, rest),
        "gen" => read_generate(alloc, rest),
        "settings" => read_settings(alloc, rest),
        "certify" => read_certify(alloc, rest),
        "verify" => read_verify(alloc, rest),
        _ => Err(WordsStop::Usage),
    }
}
