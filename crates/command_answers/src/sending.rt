//! Writing an answer.

ghost use Rattle.std.specs.Prelude.{◌≡◌};
ghost use Rattle.command_answers.specs.Sending.{IsSent, IsWriteStatus};

use crate::answers::Answer;
use crate::statuses::Status;
use outside::{Sink, send_all};

/// Writes the text of an answer, and gives its status. Where the sink fails the status is `WriteFault`, and some front of
/// the text was written. Takes no memory.
pub fn send<O: Sink>(answer: &Answer, out: &mut O) -> Status
    ensures sent { IsSent answer.now (O.sure out.old) (O.bytes out.old) (O.bytes out.new) result }
    ensures rose { IsWriteStatus (O.faults out.old) (O.faults out.new) result }
{
    match send_all(out, answer.text.bytes()) {
        Ok(()) => answer.outcome.status(),
        Err(_) => Status::WriteFault,
    }
}
