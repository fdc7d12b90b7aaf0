ghost use Rattle.std.specs.Prelude.{◌≡◌};
ghost use Rattle.case_files.specs.Faults.{IsFileFault};
ghost use Rattle.case_files.specs.declared.faults.FormFail.TheVariants as fails;

use outside::ReadFail;
use std::alloc::{AllocError, AllocFailed};
use thiserror::Error;

/// Why there are no cases.
#[derive(Clone, Copy, Debug, Error)]
pub enum FormFail {
    /// The file of cases was not read, or is too big.
    #[error("the file could not be read")]
    NotRead,
    /// The bytes are not UTF-8.
    #[error("the text is not UTF-8")]
    NotText,
    /// The line of this number, from 1, is not empty and stands in no section of a case.
    #[error("line {0} stands in no section")]
    NoSection(usize),
    /// A `\` begins none of the escapes, or a repetition is not closed.
    #[error("an escape is malformed")]
    Escape,
    /// A section is not written as its head asks.
    #[error("a section is malformed")]
    Section,
    /// Memory ran out.
    #[error("out of memory")]
    NoMemory,
}

impl From<AllocError> for FormFail {
    ghost from_gives = { λ _ fail. fail ≡ fails.NoMemory };

    fn from(_error: AllocError) -> FormFail {
        FormFail::NoMemory
    }
}

impl<T: Drop> From<AllocFailed<T>> for FormFail {
    ghost from_gives = { λ _ fail. fail ≡ fails.NoMemory };

    fn from(_error: AllocFailed<T>) -> FormFail {
        FormFail::NoMemory
    }
}

impl From<rlc_base::NoMemory> for FormFail {
    ghost from_gives = { λ _ fail. fail ≡ fails.NoMemory };

    fn from(_error: rlc_base::NoMemory) -> FormFail {
        FormFail::NoMemory
    }
}

impl From<ReadFail> for FormFail {
    ghost from_gives = { λ _ fail. IsFileFault fail };

    fn from(fail: ReadFail) -> FormFail {
        match fail {
            ReadFail::Failed | ReadFail::TooBig => FormFail::NotRead,
            ReadFail::NoMemory => FormFail::NoMemory,
        }
    }
}
