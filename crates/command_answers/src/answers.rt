//! What is to be answered, before anything is written.

ghost use Rattle.std.specs.Prelude.{◌≡◌};
ghost use Rattle.command_answers.specs.Statuses.{status_of};

use crate::statuses::Status;
use rlc_base::Text;

/// What the words and the files come to, where memory does not run out.
#[derive(Clone, Copy, Debug, PartialEq, Eq)]
pub enum Outcome {
    /// The program is accepted.
    Accepted,
    /// The program has leaks.
    Leaks,
    /// The input is refused.
    Refused,
    /// The words are none that the command takes.
    Usage,
    /// A file could not be read.
    ReadFault,
    /// The input is past a limit.
    Limit,
    /// A run was cut before its end.
    RunCut,
    /// A run ended by a stray exception.
    Stray,
}

impl Outcome {
    /// The status that says so.
    pub fn status(self) -> Status
        ensures { result ≡ status_of self }
    {
        match self {
            Outcome::Accepted => Status::Accepted,
            Outcome::Leaks => Status::Leaks,
            Outcome::Refused => Status::Refused,
            Outcome::Usage => Status::Usage,
            Outcome::ReadFault => Status::ReadFault,
            Outcome::Limit => Status::Limit,
            Outcome::RunCut => Status::RunCut,
            Outcome::Stray => Status::Stray,
        }
    }
}

/// An answer of the command.
#[derive(Debug, Drop)]
pub struct Answer {
    /// What it came to.
    pub outcome: Outcome,
    /// The whole text that is to be written.
    pub text: Text,
}
