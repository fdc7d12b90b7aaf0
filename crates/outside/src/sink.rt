ghost use Rattle.std.specs.Prelude.{◌≡◌, ℕ, ◌+◌, ◌<◌, ◌≤◌, List, length, Option, IfOk, IsOkAnd};
ghost use Rattle.std.specs.Io.{WritesAtMost};
ghost use Rattle.outside.specs.Sink.{CountsWrite, TakesFront, Sends};

/// A sink did not take what it was to take: a fault was counted.
#[derive(Clone, Copy, Debug, PartialEq, Eq)]
pub struct Failed;

/// Takes bytes in order. It may tell the bytes so far to contracts, and counts its faults in 64 bits, where the count stays at
/// the last value that it can have.
pub trait Sink {
    // The bytes so far, where the sink tells them.
    ghost bytes: { Self → Option (List ℕ) };

    // How many writes failed.
    ghost faults: { Self → ℕ };

    // So many more bytes will be taken with no fault.
    ghost sure: { Self → ℕ };

    /// Takes some bytes of the front of the piece, and answers how many. A piece that is not empty is never answered with 0:
    /// a sink that takes nothing of it counts a fault and answers `Failed`, and nothing is appended.
    fn write(&mut self, piece: &[u8]) -> Result<usize, Failed>
        ensures bound { WritesAtMost result piece.now }
        ensures takes { TakesFront (bytes self.old) (bytes self.new) result piece.now }
        ensures cause { CountsWrite (faults self.old) (faults self.new) result }
        ensures some { IfOk result (λ count. 0 < length piece.now → 0 < count) }
        ensures holds { 0 < length piece.now → length piece.now ≤ sure self.old → IsOkAnd result (λ count. sure self.old ≤ sure self.new + count) };
}

/// Writes all of the bytes. After `Failed` some front of them was taken. Needs no memory.
pub fn send_all<O: Sink>(out: &mut O, bytes: &[u8]) -> Result<(), Failed>
    ensures sends { Sends (O.bytes out.old) (O.bytes out.new) result bytes.now }
    ensures cause { CountsWrite (O.faults out.old) (O.faults out.new) result }
    ensures holds { length bytes.now ≤ O.sure out.old → IsOkAnd result (λ _. O.sure out.old ≤ O.sure out.new + length bytes.now) }
{
    let mut sent = 0;
    while sent < bytes.len() {
        sent += out.write(&bytes[sent..])?;
    }
    Ok(())
}
