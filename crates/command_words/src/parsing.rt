//! What a mode makes of the words behind it.

ghost use Rattle.std.specs.Prelude.{◌≡◌, map, string_bytes, codes, true, option_map};
ghost use Rattle.std.specs.List.{list_any};
ghost use Rattle.clap.specs.Words.{all_of, app_of, first_of, found_of, is_simple_and_free, kind_of, rows_of};
ghost use Rattle.command_words.specs.Modes.{arguments_in, is_void};
ghost use Rattle.command_words.specs.Requests.{Finds, IsCauseOf};

use crate::commands::WordsStop;
use clap::error::ErrorKind;
use clap::{ArgMatches, Command, Error};

// Whether a word can name nothing.
fn is_void(word: &str) -> bool
    ensures { result ≡ is_void word.now }
{
    word.is_empty() || word == "-"
}

// Whether one of the words can name nothing.
fn has_void(words: &[String]) -> bool
    ensures { result ≡ list_any (λ word. is_void (string_bytes word)) words.now }
{
    words.iter().any(|word| is_void(word.as_str()))
}

// Why `clap` refuses the words.
fn cause_of(error: &Error) -> WordsStop
    ensures { IsCauseOf (kind_of error.now) result }
{
    match error.kind() {
        ErrorKind::OutOfMemory => WordsStop::NoMemory,
        _other => WordsStop::Usage,
    }
}

/// The options and files that the words give, where the mode takes them: `Usage` exactly where it does not.
pub fn parse<'a>(mode: Command<'a>, words: &'a [String]) -> Result<ArgMatches<'a>, WordsStop>
    requires { is_simple_and_free (app_of mode) ≡ true }
    ensures { Finds (λ matches. rows_of (found_of matches)) (arguments_in (app_of mode.entry) (map string_bytes words.entry.now)) result }
{
    if has_void(words) {
        return Err(WordsStop::Usage);
    }
    match mode.try_get_matches_from(words) {
        Ok(matches) => Ok(matches),
        Err(error) => Err(cause_of(&error)),
    }
}

/// The value of an option.
pub fn value_of<'a>(matches: &ArgMatches<'a>, name: &str) -> Option<&'a str>
    ensures { option_map (λ text. text.now) result ≡ first_of name.now (rows_of (found_of matches.now)) }
{
    matches.get_str(name)
}

/// The files.
pub fn files_of<'m, 'a>(matches: &'m ArgMatches<'a>) -> Option<&'m [&'a str]>
    ensures { option_map (λ files. map (λ name. name.now) files.now) result ≡ all_of (codes "files") (rows_of (found_of matches.now)) }
{
    matches.get_strs("files")
}
