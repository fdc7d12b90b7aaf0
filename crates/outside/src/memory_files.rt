ghost use Rattle.std.specs.Prelude.{◌≡◌, ℕ, ◌≤◌, [], ◌∷◌, ◌++◌, length, Some, OnOk, OnErr, option_copied};
ghost use Rattle.std.specs.FinMap as map;
ghost use Rattle.outside.specs.Counts.{raised};
ghost use Rattle.outside.specs.Files.{HasFile, CountsRead, AnswersUpTo, file};
ghost use Rattle.outside.specs.MemFiles.{contents_of, mem_contents, failing_reads, read_number, read_faults, taken_bytes, is_read_failing, FailsAsListed, KeepsCounts};

use crate::files::{Files, ReadFail};
use rlc_base::NoMemory;
use std::alloc::Global;
use std::collections::VecDeque;

/// Files in memory, whose contents contracts know. Chosen reads fail, and so does each read of a name that is absent; the other
/// reads fail only for want of memory.
#[derive(Drop)]
pub struct MemFiles {
    // The newest first: an older file of the same name is hidden.
    files: VecDeque<(Vec<u8>, Vec<u8>)>,
    failing: Vec<u64>,
    reads: u64,
    faults: u64,
    taken: u64,
}

// The bytes of the first file of this name.
#[tactic(auto, using(crate::proofs::Findings::findings))]
fn content_of<'a>(files: &'a VecDeque<(Vec<u8>, Vec<u8>)>, name: &[u8]) -> Option<&'a [u8]>
    ensures { option_copied result ≡ file (contents_of files.now.items) name.now }
{
    for (key, bytes) in files {
        if name == key.as_slice() {
            return Some(bytes.as_slice());
        }
    }
    None
}

impl MemFiles {
    /// No files, and no read that is to fail.
    pub fn new(alloc: Global) -> MemFiles
        ensures contents { mem_contents result ≡ map.empty }
        ensures failing { failing_reads result ≡ [] }
        ensures number { read_number result ≡ 0 }
        ensures faults { read_faults result ≡ 0 }
    {
        MemFiles {
            files: VecDeque::new(alloc),
            failing: Vec::new(alloc),
            reads: 0,
            faults: 0,
            taken: 0,
        }
    }

    /// Adds a file, or replaces the one of this name. Where memory runs out, nothing changes.
    pub fn put(&mut self, name: &[u8], bytes: &[u8]) -> Result<(), NoMemory>
        ensures ok { OnOk result (mem_contents self.new ≡ map.insert (mem_contents self.old) name.now bytes.now) }
        ensures err { OnErr result (mem_contents self.new ≡ mem_contents self.old) }
        ensures failing_stays { failing_reads self.new ≡ failing_reads self.old }
        ensures counts_stay { KeepsCounts self.old self.new }
    {
        let alloc = *self.files.allocator();
        let key = Vec::from_slice(alloc, name)?;
        let content = Vec::from_slice(alloc, bytes)?;
        if self.files.push_front((key, content)).is_err() {
            return Err(NoMemory);
        }
        Ok(())
    }

    /// Lets the k-th read fail, counted from 1 over all reads. Where memory runs out, nothing changes.
    pub fn fail_at(&mut self, k: u64) -> Result<(), NoMemory>
        ensures ok { OnOk result (failing_reads self.new ≡ failing_reads self.old ++ k ∷ []) }
        ensures err { OnErr result (failing_reads self.new ≡ failing_reads self.old) }
        ensures contents_stay { mem_contents self.new ≡ mem_contents self.old }
        ensures counts_stay { KeepsCounts self.old self.new }
    {
        if self.failing.push(k).is_err() {
            return Err(NoMemory);
        }
        Ok(())
    }
}

impl Files for MemFiles {
    ghost contents = { λ s. Some (mem_contents s) };

    ghost faults = { read_faults };

    ghost taken = { taken_bytes };

    ghost sound = { λ s. failing_reads s ≡ [] };

    /// Fails exactly where the number of this read is listed or no file has the name.
    fn read_upto(&mut self, name: &str, most: u32, into: &mut Vec<u8>) -> Result<(), ReadFail>
        requires { into.old.items ≡ [] }
        ensures contents_stay { Some (mem_contents self.new) ≡ Some (mem_contents self.old) }
        ensures cause { CountsRead (read_faults self.old) (read_faults self.new) result }
        ensures never_falls { taken_bytes self.old ≤ taken_bytes self.new }
        ensures told { AnswersUpTo most (mem_contents self.old) name.now result into.new.items }
        ensures small { OnOk result (length into.new.items ≤ most) }
        ensures empty { OnErr result (into.new.items ≡ []) }
        ensures holds { failing_reads self.old ≡ [] → HasFile (mem_contents self.old) name.now → read_faults self.new ≡ read_faults self.old }
        ensures numbered { read_number self.new ≡ raised 1 (read_number self.old) }
        ensures failing_stays { failing_reads self.new ≡ failing_reads self.old }
        ensures listed { FailsAsListed (is_read_failing (mem_contents self.old) (failing_reads self.old) (read_number self.new) name.now) (read_faults self.old) (read_faults self.new) result }
    {
        self.reads = self.reads.saturating_add(1);
        if self.failing.contains(&self.reads) {
            self.faults = self.faults.saturating_add(1);
            return Err(ReadFail::Failed);
        }
        let Some(bytes) = content_of(&self.files, name.as_bytes()) else {
            self.faults = self.faults.saturating_add(1);
            return Err(ReadFail::Failed);
        };
        if bytes.len() > most as usize {
            return Err(ReadFail::TooBig);
        }
        if into.extend_from_slice(bytes).is_err() {
            return Err(ReadFail::NoMemory);
        }
        self.taken = self.taken.saturating_add(bytes.len() as u64);
        Ok(())
    }
}
