//! A stream in memory, of which chosen calls fail.
ghost use Rattle.std.specs.Prelude.{◌≡◌, ◌<◌, ◌≤◌, length, IfOk, is_err};
ghost use Rattle.edge_io.specs.Streams.{IsGot, answer_of};
ghost use Rattle.edge_io.specs.StreamsInMemory.{AreGivens, new_stream, next_answer, told_of_stream};
ghost use Rattle.edge_io.specs.StreamsInMemory.{after_read, after_write, read_fails, write_fails};

use crate::calls::CallCount;
use crate::content::{Givens, Numbers, Room};
use crate::failed::Failed;
use crate::givens::{Answers, Shape};
use crate::kept::Kept;
use crate::stream::{Got, Stream};
use lts_base::Memory;
use std::alloc::Global;
use std::marker::Model;

/// A stream whose answers are given; after them it answers that the other side has ended. It keeps
/// its answers and what is written, within the room that it took when it was made.
#[derive(Drop, Debug)]
pub struct MemStream {
    held: Answers,
    answers: Kept<Shape>,
    written: Vec<u8>,
    write_left: u64,
    reads: CallCount,
    writes: CallCount,
    faults: u64,
    idles: u64,
}

impl Model for MemStream {
    ghost use Rattle.std.specs.Prelude.{◌+◌, ◌≤◌, length, map, vec_capacity};
    ghost use Rattle.edge_io.specs.KeptAnswers.{given_of};
    ghost use Rattle.edge_io.specs.StreamsInMemory.{StreamInMemory};

    ghost Value = { StreamInMemory };

    ghost view = { λ s. record {
      held = s.held;
      answers = map given_of s.answers.entries;
      left = s.answers.left;
      written = s.written.items;
      write_left = s.write_left;
      reads = s.reads;
      writes = s.writes;
      faults = s.faults;
      idles = s.idles;
    } };

    ghost invariant = { λ s. length s.written.items + s.write_left ≤ vec_capacity s.written };
}

impl MemStream {
    /// The answers in their order, the room for them, and the room for what is written in bytes; a
    /// call for which there is no room is a fault. An answer of bytes that is longer than the buffer
    /// is given in parts. The calls whose numbers, counted from 1 for each method, stand in
    /// `fail_reads` and `fail_writes` are to fail.
    pub fn new(
        alloc: Global,
        answers: Givens,
        read_room: Room,
        write_room: u64,
        fail_reads: Numbers,
        fail_writes: Numbers,
    ) -> Result<MemStream, Memory>
        requires { AreGivens answers }
        ensures made { IfOk result (λ stream. stream ≡ new_stream answers read_room write_room fail_reads fail_writes) }
    {
        Ok(MemStream {
            held: Answers::new(answers),
            answers: Kept::new(alloc, read_room)?,
            written: Vec::with_capacity(alloc, write_room as usize)?,
            write_left: write_room,
            reads: CallCount::new(fail_reads),
            writes: CallCount::new(fail_writes),
            faults: 0,
            idles: 0,
        })
    }

    /// All that was written.
    pub fn written(&self) -> &[u8]
        ensures { result.now ≡ self.now.written }
    {
        self.written.as_slice()
    }
}

impl Stream for MemStream {
    ghost told = { told_of_stream };

    fn read(&mut self, buf: &mut [u8]) -> Result<Got, Failed>
        requires room { 0 < length buf.old }
        ensures length { length buf.new ≡ length buf.old }
        ensures answer { IfOk result (λ got. answer_of got buf.new ≡ next_answer self.old.held (length buf.old)) }
        ensures got { IfOk result (λ got. IsGot got buf.new) }
        ensures fails { is_err result ≡ read_fails self.old (length buf.old) }
        ensures after { self.new ≡ after_read self.old (length buf.old) }
        ensures later { self.old.faults ≤ self.new.faults }
        ensures later_idles { self.old.idles ≤ self.new.idles }
    {
        let fails = self.reads.fails_next();
        let piece = self.held.next(buf.len());
        if fails || !self.answers.add(piece.shape, piece.bytes) {
            self.faults = self.faults.saturating_add(1);
            return Err(Failed);
        }
        let count = piece.bytes.len();
        let got = piece.give(buf);
        self.held.pass(count);
        if got == Got::Idle {
            self.idles = self.idles.saturating_add(1);
        }
        Ok(got)
    }

    fn write(&mut self, piece: &[u8]) -> Result<usize, Failed>
        ensures whole { IfOk result (λ n. n ≡ length piece.now) }
        ensures fails { is_err result ≡ write_fails self.old (length piece.now) }
        ensures after { self.new ≡ after_write self.old piece.now }
        ensures later { self.old.faults ≤ self.new.faults }
    {
        if self.writes.fails_next()
            || piece.len() as u64 > self.write_left
            || self.written.extend_from_slice(piece).is_err()
        {
            self.faults = self.faults.saturating_add(1);
            return Err(Failed);
        }
        self.write_left -= piece.len() as u64;
        Ok(piece.len())
    }
}
