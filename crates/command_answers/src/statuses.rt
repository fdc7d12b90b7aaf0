//! The exit statuses.

ghost use Rattle.std.specs.Prelude.{◌≡◌};
ghost use Rattle.command_answers.specs.Statuses.{status_code};

/// What a run of the command came to.
#[derive(Clone, Copy, Debug, PartialEq, Eq)]
pub enum Status {
    /// The program is accepted.
    Accepted,
    /// The program has leaks.
    Leaks,
    /// The input is refused.
    Refused,
    /// The words are none that the command takes.
    Usage,
    /// A file could not be read.
    ReadFault,
    /// The text could not be written whole.
    WriteFault,
    /// Memory ran out.
    NoMemory,
    /// The input is past a limit.
    Limit,
    /// A run was cut before its end.
    RunCut,
    /// A run ended by a stray exception.
    Stray,
}

impl Status {
    /// The exit status of the program: 0 to 9, in the order above. Takes no memory.
    pub fn code(self) -> u8
        ensures { result ≡ status_code self }
    {
        match self {
            Status::Accepted => 0,
            Status::Leaks => 1,
            Status::Refused => 2,
            Status::Usage => 3,
            Status::ReadFault => 4,
            Status::WriteFault => 5,
            Status::NoMemory => 6,
            Status::Limit => 7,
            Status::RunCut => 8,
            Status::Stray => 9,
        }
    }
}
