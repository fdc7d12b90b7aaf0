//! Why a command goes no further.

ghost use Rattle.std.specs.Prelude.{◌≡◌};
ghost use Rattle.command_inputs.specs.declared.halts.Halt.TheVariants as halts;

use command_answers::Answer;
use rlc_base::NoMemory;

/// Why a command goes no further.
#[derive(Debug, Drop)]
pub enum Halt {
    /// An answer is due at once.
    Answered(Answer),
    /// Memory ran out.
    NoMemory,
}

impl From<NoMemory> for Halt {
    ghost from_gives = { λ _ halt. halt ≡ halts.NoMemory };

    fn from(_error: NoMemory) -> Halt {
        Halt::NoMemory
    }
}
