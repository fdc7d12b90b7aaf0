// Whether an answer is the one that a case wants.

ghost use Rattle.std.specs.Prelude.{◌≡◌, ◌↔◌, IsTrue};
ghost use Rattle.case_files.specs.Agreement.{IsVerdict};

use crate::answer::Answer;
use crate::reports::{Steps, agree_reports};

/// What of an answer is compared.
#[derive(Clone, Copy)]
pub enum Comparison {
    /// The status and the whole text.
    Whole,
    /// The status alone.
    Status,
    /// The status, and of each report its first two lines and the number of its steps.
    Counted,
    /// The status, and of each report its first two lines.
    Open,
}

/// Whether the given answer is as wanted.
pub fn agrees(comparison: Comparison, wanted: &Answer, given: &Answer) -> bool
    ensures { IsVerdict comparison wanted.now given.now result }
{
    if wanted.status != given.status {
        return false;
    }
    match comparison {
        Comparison::Whole => wanted.text == given.text,
        Comparison::Status => true,
        Comparison::Counted => agree_reports(Steps::Counted, &wanted.text, &given.text),
        Comparison::Open => agree_reports(Steps::Open, &wanted.text, &given.text),
    }
}

/// Whether the text that is given is the one that is wanted.
pub fn same_text(given: &[u8], wanted: &[u8]) -> bool
    ensures { IsTrue result ↔ given.now ≡ wanted.now }
{
    given == wanted
}
