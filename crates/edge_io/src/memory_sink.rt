//! A sink in memory, of which chosen writes fail.
ghost use Rattle.std.specs.Prelude.{◌≡◌, ◌<◌, ◌≤◌, [], length, IfOk, Some, is_err};
ghost use Rattle.edge_io.specs.InMemory.{part_of, write_fails, after_write};

use crate::content::Numbers;
use crate::failed::Failed;
use crate::sink::Sink;
use lts_base::Memory;
use std::alloc::Global;
use std::marker::Model;

/// A sink that keeps what was written, within the room that it took when it was made.
#[derive(Drop, Debug)]
pub struct MemSink {
    written: Vec<u8>,
    room: u64,
    most: u32,
    fail_writes: Numbers,
    writes: u64,
    faults: u64,
}

impl Model for MemSink {
    ghost use Rattle.std.specs.Prelude.{◌≤◌, length, vec_capacity};
    ghost use Rattle.edge_io.specs.InMemory.{SinkInMemory};

    ghost Value = { SinkInMemory };

    ghost view = { λ s. record { written = s.written.items; room = s.room; most = s.most; fail_writes = s.fail_writes; writes = s.writes; faults = s.faults } };

    ghost invariant = { λ s. (1 ≤ s.most) × (length s.written.items ≤ s.room) × (s.room ≤ vec_capacity s.written) };
}

impl MemSink {
    /// One write takes at most `most` bytes, and a write past `room` bytes in all is a fault. The
    /// writes whose numbers, counted from 1, stand in `fail_writes` are to fail.
    pub fn new(alloc: Global, room: u64, most: u32, fail_writes: Numbers) -> Result<MemSink, Memory>
        requires { 1 ≤ most }
        ensures made { IfOk result (λ sink. sink ≡ record { written = []; room = room; most = most; fail_writes = fail_writes; writes = 0; faults = 0 }) }
        ensures told { IfOk result (λ sink. ⟦<MemSink as Sink>⟧.told sink ≡ record { written = Some []; faults = 0 }) }
    {
        let written = Vec::with_capacity(alloc, room as usize)?;
        Ok(MemSink {
            written,
            room,
            most,
            fail_writes,
            writes: 0,
            faults: 0,
        })
    }

    /// All that was written.
    pub fn written(&self) -> &[u8]
        ensures { result.now ≡ self.now.written }
    {
        self.written.as_slice()
    }
}

impl Sink for MemSink {
    ghost told = { λ s. record { written = Some s.written; faults = s.faults } };

    fn write(&mut self, piece: &[u8]) -> Result<usize, Failed>
        ensures count { IfOk result (λ n. n ≡ part_of self.old piece.now) }
        ensures some { IfOk result (λ n. 0 < length piece.now → 0 < n) }
        ensures later { self.old.faults ≤ self.new.faults }
        ensures fails { is_err result ≡ write_fails self.old piece.now }
        ensures after { self.new ≡ after_write self.old piece.now }
    {
        let count = piece.len().min(self.most as usize);
        self.writes = self.writes.saturating_add(1);
        if !self.fail_writes.as_slice().contains(&self.writes)
            && count as u64 <= self.room - self.written.len() as u64
            && self.written.extend_from_slice(&piece[..count]).is_ok()
        {
            return Ok(count);
        }
        self.faults = self.faults.saturating_add(1);
        Err(Failed)
    }
}
