//! Entries with texts, in room that is taken when their list is made.
ghost use Rattle.std.specs.Prelude.{◌≡◌, [], ◌∷◌, ◌++◌, length, IfOk};
ghost use Rattle.std.specs.Bool.{OnFalse, OnTrue};
ghost use Rattle.edge_io.specs.Kept.{entries_of, marked_bytes, with_entry};
ghost use Rattle.edge_io.specs.Rooms.{has_room};

use crate::content::Room;
use lts_base::Memory;
use std::alloc::Global;
use std::marker::Model;

/// An entry without its text.
#[derive(Clone, Copy, Debug)]
pub(crate) struct Mark<H> {
    /// What the entry is.
    pub(crate) head: H,
    /// How many bytes its text has.
    pub(crate) length: usize,
}

/// A list of entries, whose texts stand one after the other.
#[derive(Drop, Debug)]
pub(crate) struct Kept<H> {
    marks: Vec<Mark<H>>,
    bytes: Vec<u8>,
    left: Room,
}

impl<H> Model for Kept<H> {
    ghost use Rattle.std.specs.Prelude.{◌≡◌, ◌+◌, ◌≤◌, length, vec_capacity};
    ghost use Rattle.edge_io.specs.Kept.{Keeping, entries_of, marked_bytes};

    ghost Value = { Keeping H };

    ghost view = { λ k. record { entries = entries_of k.marks.items k.bytes.items; left = k.left } };

    ghost invariant = { λ k.
        (length k.marks.items + k.left.entries ≤ vec_capacity k.marks)
        × (length k.bytes.items + k.left.bytes ≤ vec_capacity k.bytes)
        × (marked_bytes k.marks.items ≡ length k.bytes.items) };
}

impl<H: Copy + Drop> Kept<H> {
    /// No entry yet, and room for so many.
    pub(crate) fn new(alloc: Global, room: Room) -> Result<Kept<H>, Memory>
        ensures { IfOk result (λ kept. kept ≡ record { entries = []; left = room }) }
    {
        Ok(Kept {
            marks: Vec::with_capacity(alloc, room.entries as usize)?,
            bytes: Vec::with_capacity(alloc, room.bytes as usize)?,
            left: room,
        })
    }

    /// Keeps one more entry; false where there is no room for it.
    pub(crate) fn add(&mut self, head: H, text: &[u8]) -> bool
        ensures room { result ≡ has_room self.old.left (length text.now) }
        ensures kept { OnTrue result (self.new ≡ with_entry self.old head text.now) }
        ensures same { OnFalse result (self.new ≡ self.old) }
    {
        let length = text.len();
        if self.left.entries == 0
            || length as u64 > self.left.bytes
            || self.bytes.extend_from_slice(text).is_err()
        {
            return false;
        }
        self.marks.push_reserved(Mark { head, length });
        self.left.entries -= 1;
        self.left.bytes -= length as u64;
        true
    }
    /// The entries without their texts, and the texts one after the other.
    pub(crate) fn parts(&self) -> (&[Mark<H>], &[u8])
        ensures entries { entries_of result.0.now result.1.now ≡ self.now.entries }
        ensures bytes { marked_bytes result.0.now ≡ length result.1.now }
    {
        (self.marks.as_slice(), self.bytes.as_slice())
    }
}
