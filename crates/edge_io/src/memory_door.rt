//! A door in memory, of which chosen calls fail.
ghost use Rattle.std.specs.Prelude.{◌≡◌, ◌≤◌, ◌⊎◌, IfOk, OnOk, is_err, slice_index_or, true};
ghost use Rattle.edge_io.specs.Doors.{DoorFails, DoorIdles, IsNewStream, KeepsDoor};
ghost use Rattle.edge_io.specs.DoorsInMemory.{AreNewStreams, accept_fails, after_accept, after_bind, after_close, new_door, told_of_door};
ghost use Rattle.edge_io.specs.Outside.{Grew};
ghost use Rattle.edge_io.specs.Rooms.{fails_next};
ghost use Rattle.edge_io.specs.StreamsInMemory.{StreamInMemory, told_of_stream};

use crate::bound::Binds;
use crate::calls::CallCount;
use crate::content::{Numbers, Room};
use crate::door::Door;
use crate::failed::Failed;
use crate::memory_stream::MemStream;
use lts_base::{Listed, Memory};
use std::alloc::Global;
use std::marker::Model;
use std::vec::IntoIter;

/// The streams of a door in memory.
pub type Streams = Listed<MemStream>;

/// A door whose streams are given, one for each number of an accept. It keeps the addresses of its
/// binds, within the room that it took when it was made, and as many closed streams as were given.
#[derive(Drop)]
pub struct MemDoor {
    listens: bool,
    streams: IntoIter<MemStream>,
    binding: Binds,
    binds: CallCount,
    accepts: CallCount,
    accepted: usize,
    closed: Vec<MemStream>,
    // the room in `closed`
    most: usize,
    // whether each stream that was closed is among `closed`
    is_whole: bool,
    refused: u64,
    faults: u64,
    idles: u64,
}

impl Model for MemDoor {
    ghost use Rattle.std.specs.Prelude.{◌+◌, ◌≤◌, vec_capacity};
    ghost use Rattle.std.specs.Vec.Iter.{into_iter_items, into_iter_len};
    ghost use Rattle.edge_io.specs.DoorsInMemory.{AreNewStreams, DoorInMemory};

    ghost Value = { DoorInMemory };

    ghost view = { λ d. record {
      listens = d.listens;
      streams = into_iter_items d.streams;
      binding = d.binding;
      binds = d.binds;
      accepts = d.accepts;
      accepted = d.accepted;
      closed = d.closed.items;
      most = d.most;
      is_whole = d.is_whole;
      refused = d.refused;
      faults = d.faults;
      idles = d.idles;
    } };

    ghost invariant = { λ d.
        AreNewStreams (into_iter_items d.streams)
        × (d.accepted + into_iter_len d.streams ≤ d.most)
        × (d.most ≤ vec_capacity d.closed) };
}

impl MemDoor {
    /// Accept number k, counted from 1, hands out stream number k; an accept past the last stream is
    /// refused. The calls whose numbers, counted from 1 for each method, stand in `fail_binds` and
    /// `fail_accepts` are to fail. `room` is that for the addresses of the binds.
    pub fn new(
        alloc: Global,
        streams: Streams,
        room: Room,
        fail_binds: Numbers,
        fail_accepts: Numbers,
    ) -> Result<MemDoor, Memory>
        requires { AreNewStreams streams }
        ensures made { IfOk result (λ door. door ≡ new_door streams room fail_binds fail_accepts) }
    {
        let most = streams.as_slice().len();
        let closed = Vec::with_capacity(alloc, most)?;
        Ok(MemDoor {
            listens: false,
            streams: streams.into_vec().into_iter(),
            binding: Binds::new(alloc, room)?,
            binds: CallCount::new(fail_binds),
            accepts: CallCount::new(fail_accepts),
            accepted: 0,
            closed,
            most,
            is_whole: true,
            refused: 0,
            faults: 0,
            idles: 0,
        })
    }

    /// The streams that were closed, those apart for which there was no room.
    pub fn closed(&self) -> &[MemStream]
        ensures { result.now ≡ self.now.closed }
    {
        self.closed.as_slice()
    }
}

impl Door for MemDoor {
    type Stream = MemStream;

    ghost told = { told_of_door };

    fn bind(&mut self, address: &str) -> Result<(), Failed>
        ensures fails { is_err result ≡ fails_next self.old.binds }
        ensures after { self.new ≡ after_bind self.old address.now }
        ensures listens { OnOk result (self.new.listens ≡ true) }
        ensures asked { Grew self.old.binding.list self.new.binding.list address.now }
        ensures later { KeepsDoor (told_of_door self.old) (told_of_door self.new) }
    {
        let fails = self.binds.fails_next();
        self.binding.add(address);
        if fails {
            self.refused = self.refused.saturating_add(1);
            self.faults = self.faults.saturating_add(1);
            return Err(Failed);
        }
        self.listens = true;
        Ok(())
    }

    fn accept(&mut self, _tick: u32) -> Result<MemStream, Failed>
        ensures stream { IfOk result (λ stream. (d : StreamInMemory) → stream ≡ slice_index_or self.old.streams 0 d) }
        ensures new { IfOk result (λ stream. IsNewStream (told_of_stream stream)) }
        ensures fails { is_err result ≡ accept_fails self.old }
        ensures after { self.new ≡ after_accept self.old }
        ensures later { KeepsDoor (told_of_door self.old) (told_of_door self.new) }
    {
        let fails = self.accepts.fails_next();
        if let Some(stream) = self.streams.next()
            && !fails
        {
            self.accepted += 1;
            return Ok(stream);
        }
        self.refused = self.refused.saturating_add(1);
        self.faults = self.faults.saturating_add(1);
        Err(Failed)
    }

    fn close(&mut self, stream: MemStream)
        ensures after { self.new ≡ after_close self.old stream }
        ensures faults { (stream.faults ≡ 0) ⊎ DoorFails (told_of_door self.old) (told_of_door self.new) }
        ensures idles { (stream.idles ≡ 0) ⊎ DoorIdles (told_of_door self.old) (told_of_door self.new) }
        ensures later { KeepsDoor (told_of_door self.old) (told_of_door self.new) }
    {
        if self.closed.len() < self.most {
            self.closed.push_reserved(stream);
            return;
        }
        self.is_whole = false;
        self.faults = self.faults.saturating_add(1);
        self.idles = self.idles.saturating_add(1);
    }
}
