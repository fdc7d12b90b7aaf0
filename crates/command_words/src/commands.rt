//! What the words of the command may ask for.

ghost use Rattle.std.specs.Prelude.{◌≡◌};
ghost use Rattle.command_words.specs.declared.commands.WordsStop.TheVariants as stops;

use std::alloc::AllocError;

/// The files that a command reads.
#[derive(Debug, Drop)]
pub struct Inputs<'a> {
    /// The settings file, where one is named.
    pub settings: Option<&'a str>,
    /// The stub files and the Java sources, in the order of the words.
    pub files: Vec<&'a str>,
}

/// What the words ask for. The names are those of the words.
#[derive(Debug, Drop)]
pub enum Command<'a> {
    /// Report the leaks of the program of these files.
    Check(Inputs<'a>),
    /// Run the `main` of a class of the program of these files.
    Run {
        /// The qualified name of the class.
        main: &'a str,
        /// The file with the choices of the run, where one is named.
        choices: Option<&'a str>,
        /// The most steps that are taken, from 0 to 10,000,000.
        steps: u32,
        /// The files of the program.
        inputs: Inputs<'a>,
    },
    /// Report how many leaks the program of a seed has.
    Generate {
        /// The seed, from 0 to 2,147,483,647.
        seed: u32,
        /// The number of the program's methods, from 0 to 5,000.
        methods: u32,
    },
    /// Write a certificate of the program of these files, where it is accepted.
    Certify(Inputs<'a>),
    /// Say whether a certificate is one of the program of these files.
    Verify {
        /// The file with the certificate.
        certificate: &'a str,
        /// The files of the program.
        inputs: Inputs<'a>,
    },
    /// Print the settings of a file as a document of the newest version.
    Settings {
        /// The settings file.
        file: &'a str,
    },
}

/// Why no command is read of the words.
#[derive(Clone, Copy, Debug, PartialEq, Eq)]
pub enum WordsStop {
    /// The words are none that the command takes.
    Usage,
    /// Memory ran out.
    NoMemory,
}

impl From<AllocError> for WordsStop {
    ghost from_gives = { λ _ stop. stop ≡ stops.NoMemory };

    fn from(_error: AllocError) -> WordsStop {
        WordsStop::NoMemory
    }
}
