ghost use Rattle.std.specs.Prelude.{◌≡◌};
ghost use Rattle.rlc_base.specs.declared.faults.Stop.TheVariants as stops;
ghost use Rattle.rlc_base.specs.declared.faults.InternFail.TheVariants as fails;

use crate::code::Code;
use crate::place::Pos;
use std::alloc::{AllocError, AllocFailed};
use thiserror::Error;

/// Memory ran out. No clause ties it to a refused growth, so it may come from each call that allocates.
#[derive(Clone, Copy, Debug, PartialEq, Eq)]
pub struct NoMemory;

impl From<AllocError> for NoMemory {
    fn from(_error: AllocError) -> NoMemory {
        NoMemory
    }
}

impl<T: Drop> From<AllocFailed<T>> for NoMemory {
    fn from(_error: AllocFailed<T>) -> NoMemory {
        NoMemory
    }
}

/// Why a text or a program was not taken: the code of the product's table of refusals, and the place.
#[derive(Clone, Copy, Debug, PartialEq, Eq)]
pub struct Refusal {
    pub code: Code,
    /// Where the cause stands. A refusal with no place has line 0.
    pub pos: Pos,
}

/// Why a layer stopped: the input is refused, a limit is passed, or memory ran out.
#[derive(Clone, Copy, Debug, PartialEq, Eq, Error)]
pub enum Stop {
    /// The input breaks a rule.
    #[error("refused: {0:?}")]
    Refused(Refusal),
    /// The input passes a limit.
    #[error("past a limit: {0:?}")]
    TooMuch(Refusal),
    /// Memory ran out, which may come from each call that allocates.
    #[error("out of memory")]
    NoMemory,
}

impl From<NoMemory> for Stop {
    ghost from_gives = { λ _ stop. stop ≡ stops.NoMemory };

    fn from(_error: NoMemory) -> Stop {
        Stop::NoMemory
    }
}

impl From<AllocError> for Stop {
    ghost from_gives = { λ _ stop. stop ≡ stops.NoMemory };

    fn from(_error: AllocError) -> Stop {
        Stop::NoMemory
    }
}

impl<T: Drop> From<AllocFailed<T>> for Stop {
    ghost from_gives = { λ _ stop. stop ≡ stops.NoMemory };

    fn from(_error: AllocFailed<T>) -> Stop {
        Stop::NoMemory
    }
}

/// Why a name was not taken into the table of names.
#[derive(Clone, Copy, Debug, PartialEq, Eq, Error)]
pub enum InternFail {
    /// The name is new, and the table holds 128 names already.
    #[error("the table already holds 128 names")]
    TooManyNames,
    /// Memory ran out. This never comes for a name that is held.
    #[error("out of memory")]
    NoMemory,
}

impl From<AllocError> for InternFail {
    ghost from_gives = { λ _ fail. fail ≡ fails.NoMemory };

    fn from(_error: AllocError) -> InternFail {
        InternFail::NoMemory
    }
}

impl<T: Drop> From<AllocFailed<T>> for InternFail {
    ghost from_gives = { λ _ fail. fail ≡ fails.NoMemory };

    fn from(_error: AllocFailed<T>) -> InternFail {
        InternFail::NoMemory
    }
}
