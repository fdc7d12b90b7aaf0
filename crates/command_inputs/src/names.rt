//! The files of a command.

use rlc_base::Text;

/// The names of the files of a command.
#[derive(Clone, Copy)]
pub struct CommandNames<'a> {
    /// The settings file, where one is named.
    pub settings: Option<&'a str>,
    /// The choices file, where one is named.
    pub choices: Option<&'a str>,
    /// The stub files and the Java sources, in the order of the words.
    pub files: &'a [&'a str],
}

/// A file that was read.
#[derive(Clone, Copy)]
pub struct NamedText<'a> {
    /// Its name.
    pub name: &'a str,
    /// What it holds.
    pub bytes: &'a [u8],
}

/// What was read of the files of a command.
#[derive(Clone, Copy)]
pub struct CommandTexts<'a> {
    /// The settings file, where one is named.
    pub settings: Option<NamedText<'a>>,
    /// The choices file, where one is named.
    pub choices: Option<NamedText<'a>>,
    /// The names of the stub files and the Java sources, in the order of the words.
    pub names: &'a [&'a str],
    /// Their texts.
    pub texts: &'a [Text],
}
