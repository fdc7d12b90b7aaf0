ghost use Rattle.std.specs.Prelude.{◌≡◌, ◌+◌, ◌<◌, ◌≤◌, [], ◌∷◌, ◌++◌, length, min, Some, IfOk, OnOk, OnErr, IsOkAnd, vec_len, vec_capacity};
ghost use Rattle.std.specs.Io.{WritesAtMost};
ghost use Rattle.outside.specs.Counts.{raised};
ghost use Rattle.outside.specs.Sink.{CountsWrite, TakesFront};

use crate::sink::{Failed, Sink};
use rlc_base::NoMemory;
use std::alloc::Global;

/// A sink in memory, whose bytes contracts know. It takes at most `most` bytes at a write and `room` bytes in all. Chosen writes
/// fail, and so does each write of a piece that is not empty where no room is left.
#[derive(Drop)]
pub struct MemSink {
    bytes: Vec<u8>,
    room: usize,
    most: usize,
    failing: Vec<u64>,
    writes: u64,
    faults: u64,
    ghost fits: { vec_len bytes ≤ room },
    ghost reserved: { room ≤ vec_capacity bytes },
    ghost takes_some: { 0 < most },
}

impl MemSink {
    ghost use Rattle.outside.specs.MemSink.{sink_bytes, sink_room, sink_most, failing_writes, write_number, write_faults, KeepsWrites};

    /// An empty sink. Takes the memory for `room` bytes at once, so that no write needs any.
    pub fn new(alloc: Global, room: usize, most: usize) -> Result<MemSink, NoMemory>
        requires { 1 ≤ most }
        ensures bytes { IfOk result (λ s. sink_bytes s ≡ []) }
        ensures room { IfOk result (λ s. sink_room s ≡ room) }
        ensures most { IfOk result (λ s. sink_most s ≡ most) }
        ensures failing { IfOk result (λ s. failing_writes s ≡ []) }
        ensures number { IfOk result (λ s. write_number s ≡ 0) }
        ensures faults { IfOk result (λ s. write_faults s ≡ 0) }
    {
        let bytes = Vec::with_capacity(alloc, room)?;
        Ok(MemSink {
            bytes,
            room,
            most,
            failing: Vec::new(alloc),
            writes: 0,
            faults: 0,
        })
    }

    /// Lets the k-th write fail, counted from 1 over all writes. Where memory runs out, nothing changes.
    pub fn fail_at(&mut self, k: u64) -> Result<(), NoMemory>
        ensures ok { OnOk result (failing_writes self.new ≡ failing_writes self.old ++ k ∷ []) }
        ensures err { OnErr result (failing_writes self.new ≡ failing_writes self.old) }
        ensures writes_stay { KeepsWrites self.old self.new }
    {
        if self.failing.push(k).is_err() {
            return Err(NoMemory);
        }
        Ok(())
    }

    /// The bytes so far.
    pub fn bytes(&self) -> &[u8]
        ensures { result.now ≡ sink_bytes self.now }
    {
        self.bytes.as_slice()
    }
}

impl Sink for MemSink {
    ghost use Rattle.outside.specs.MemSink.{sink_bytes, sink_room, sink_most, failing_writes, write_number, write_faults, room_left, if_none_fails, is_write_failing, TakesAsListed};

    ghost bytes = { λ s. Some (sink_bytes s) };

    ghost faults = { write_faults };

    ghost sure = { λ s. if_none_fails (failing_writes s) (room_left s) };

    /// Fails exactly where the number of this write is listed, or no room is left for a piece that is not empty. Takes no memory.
    fn write(&mut self, piece: &[u8]) -> Result<usize, Failed>
        ensures bound { WritesAtMost result piece.now }
        ensures takes { TakesFront (Some (sink_bytes self.old)) (Some (sink_bytes self.new)) result piece.now }
        ensures cause { CountsWrite (write_faults self.old) (write_faults self.new) result }
        ensures some { IfOk result (λ count. 0 < length piece.now → 0 < count) }
        ensures holds { 0 < length piece.now → length piece.now ≤ if_none_fails (failing_writes self.old) (room_left self.old) → IsOkAnd result (λ count. if_none_fails (failing_writes self.old) (room_left self.old) ≤ if_none_fails (failing_writes self.new) (room_left self.new) + count) }
        ensures numbered { write_number self.new ≡ raised 1 (write_number self.old) }
        ensures listed { TakesAsListed (is_write_failing (failing_writes self.old) (write_number self.new) (room_left self.old) (length piece.now)) (min (length piece.now) (min (sink_most self.old) (room_left self.old))) (write_faults self.old) (write_faults self.new) result }
        ensures failing_stays { failing_writes self.new ≡ failing_writes self.old }
        ensures room_stays { sink_room self.new ≡ sink_room self.old }
        ensures most_stays { sink_most self.new ≡ sink_most self.old }
    {
        self.writes = self.writes.saturating_add(1);
        if self.failing.contains(&self.writes) {
            self.faults = self.faults.saturating_add(1);
            return Err(Failed);
        }
        let left = self.room - self.bytes.len();
        if !piece.is_empty() && left == 0 {
            self.faults = self.faults.saturating_add(1);
            return Err(Failed);
        }
        let count = piece.len().min(self.most.min(left));
        if self.bytes.extend_from_slice(&piece[..count]).is_err() {
            unreachable!()
        }
        Ok(count)
    }
}
