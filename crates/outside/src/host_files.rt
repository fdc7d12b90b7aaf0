ghost use Rattle.std.specs.Prelude.{◌≡◌, ℕ, ◌≤◌, [], length, None, OnOk, OnErr, IfSome};
ghost use Rattle.outside.specs.Files.{TakesMore};

use crate::files::{Files, ReadFail};
use std::{fs, io, rt};

// How many bytes are asked for at once.
const CHUNK: usize = 4096;

/// The files of the host: the trusted edge. Contracts know nothing of their contents, but that each failure is counted, and how
/// many bytes were taken.
#[derive(Drop)]
pub struct HostFiles<'a, R: rt::Files> {
    runtime: &'a R,
    faults: u64,
    taken: u64,
}

// Reads to the end, or until more than `most` bytes are there: all that the file had left, where that is known. After an
// error `into` holds what came before it.
fn read_whole<F: io::Read>(
    file: &mut F,
    most: u32,
    taken: &mut u64,
    into: &mut Vec<u8>,
) -> Result<(), ReadFail>
    requires { into.old.items ≡ [] }
    ensures never_falls { taken.old ≤ taken.new }
    ensures past { result ≡ Err ReadFail.TooBig → TakesMore most taken.old taken.new }
    ensures small { OnOk result (length into.new.items ≤ most) }
    ensures whole { OnOk result (IfSome (F.remaining file.old) (λ bytes. into.new.items ≡ bytes)) }
{
    let mut chunk = [0u8; CHUNK];
    for _ in 0..u64::MAX {
        match file.read(&mut chunk) {
            Ok(0) => return Ok(()),
            Ok(count) => {
                *taken = taken.saturating_add(count as u64);
                if count > most as usize - into.len() {
                    return Err(ReadFail::TooBig);
                }
                if into.extend_from_slice(&chunk[..count]).is_err() {
                    return Err(ReadFail::NoMemory);
                }
            }
            Err(error) => {
                if error.kind() != io::ErrorKind::Interrupted {
                    return Err(ReadFail::Failed);
                }
            }
        }
    }
    Err(ReadFail::Failed)
}

impl<'a, R: rt::Files> HostFiles<'a, R> {
    /// The files that the runtime reaches. No fault and no byte is counted yet.
    pub fn new(runtime: &'a R) -> HostFiles<'a, R>
        ensures faults { ⟦<HostFiles<'a, R> as Files>⟧.faults result ≡ 0 }
        ensures taken { ⟦<HostFiles<'a, R> as Files>⟧.taken result ≡ 0 }
    {
        HostFiles {
            runtime,
            faults: 0,
            taken: 0,
        }
    }

    // Opens the file and reads it.
    fn read_named(&mut self, name: &str, most: u32, into: &mut Vec<u8>) -> Result<(), ReadFail>
        requires { into.old.items ≡ [] }
        ensures faults_stay { self.new.faults ≡ self.old.faults }
        ensures never_falls { self.old.taken ≤ self.new.taken }
        ensures past { result ≡ Err ReadFail.TooBig → TakesMore most self.old.taken self.new.taken }
        ensures small { OnOk result (length into.new.items ≤ most) }
    {
        match fs::open(self.runtime, name) {
            Ok(mut file) => read_whole(&mut file, most, &mut self.taken, into),
            Err(error) => {
                if error.kind() == io::ErrorKind::OutOfMemory {
                    return Err(ReadFail::NoMemory);
                }
                Err(ReadFail::Failed)
            }
        }
    }
}

impl<R: rt::Files> Files for HostFiles<'_, R> {
    ghost contents = { λ s. None };

    ghost faults = { λ s. s.faults };

    ghost taken = { λ s. s.taken };

    ghost sound = { λ s. ⊥ };

    fn read_upto(&mut self, name: &str, most: u32, into: &mut Vec<u8>) -> Result<(), ReadFail> {
        let result = self.read_named(name, most, into);
        if result.is_err() {
            into.clear();
        }
        if result == Err(ReadFail::Failed) {
            self.faults = self.faults.saturating_add(1);
        }
        result
    }
}
