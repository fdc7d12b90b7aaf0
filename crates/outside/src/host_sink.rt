ghost use Rattle.std.specs.Prelude.{◌≡◌, ◌<◌, ◌≤◌, length, None, IfSome};

use crate::sink::{Failed, Sink};
use std::io;

/// The standard output of the host: the trusted edge. Contracts know nothing of its bytes, but that each failure is counted.
#[derive(Drop)]
pub struct HostSink<'a, P: Print> {
    printer: &'a P,
    faults: u64,
}

// Lets the host take some bytes of the front of the piece. `None` where it fails, or takes none of a piece that is not empty.
fn take_some<P: Print>(printer: &P, piece: &[u8]) -> Option<usize>
    ensures bound { IfSome result (λ count. count ≤ length piece.now) }
    ensures some { IfSome result (λ count. 0 < length piece.now → 0 < count) }
{
    for _ in 0..u64::MAX {
        match printer.write_some(piece) {
            Ok(count) => {
                if count == 0 && !piece.is_empty() {
                    return None;
                }
                return Some(count);
            }
            Err(error) => {
                if error.kind() != io::ErrorKind::Interrupted {
                    return None;
                }
            }
        }
    }
    None
}

impl<'a, P: Print> HostSink<'a, P> {
    /// The standard output that the runtime reaches. No fault is counted yet.
    pub fn new(printer: &'a P) -> HostSink<'a, P>
        ensures { ⟦<HostSink<'a, P> as Sink>⟧.faults result ≡ 0 }
    {
        HostSink { printer, faults: 0 }
    }
}

impl<P: Print> Sink for HostSink<'_, P> {
    ghost bytes = { λ s. None };

    ghost faults = { λ s. s.faults };

    ghost sure = { λ s. 0 };

    fn write(&mut self, piece: &[u8]) -> Result<usize, Failed> {
        let Some(count) = take_some(self.printer, piece) else {
            self.faults = self.faults.saturating_add(1);
            return Err(Failed);
        };
        Ok(count)
    }
}
