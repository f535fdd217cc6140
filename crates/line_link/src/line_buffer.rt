//! The bytes that were read and not taken yet, and the text that was last taken from them.
ghost use Rattle.std.specs.Prelude.{◌≡◌, ◌+◌, ◌↔◌, ◌≤◌, [], ◌++◌, length, take, drop, IfOk, IsTrue};
ghost use Rattle.edge_io.specs.declared.act.TheConstants.{MOST_HEARD_BYTES};
ghost use Rattle.line_link.specs.AtHand.{IsFound};
ghost use Rattle.line_link.specs.Hearing.{without_cr};

use edge_io::MOST_HEARD_BYTES;
use lts_base::Memory;
use std::alloc::Global;
use std::marker::Model;
use text_scan::cut_at;

/// The bytes of a link's buffer.
pub(crate) const BUFFER_BYTES: usize = 4_096;

/// The most bytes of one read, which the buffer has room for beside an unfinished line.
pub(crate) const READ_BYTES: usize = BUFFER_BYTES - MOST_HEARD_BYTES;

/// What bytes begin with.
#[derive(Clone, Copy, Debug, PartialEq, Eq)]
pub(crate) enum Found {
    /// A line.
    Line,
    /// More bytes than a line may have.
    Long,
    /// Less than a line.
    Part,
}

/// A buffer, whose bytes from a place on are at hand, and a part of which was said.
#[derive(Drop, Debug)]
pub(crate) struct LineBuffer {
    buffer: Vec<u8>,
    from: usize,
    said_from: usize,
    said_to: usize,
}

impl Model for LineBuffer {
    ghost use Rattle.std.specs.Prelude.{◌-◌, ◌≤◌, length, drop, take, vec_capacity};
    ghost use Rattle.line_link.specs.AtHand.{AtHand};
    ghost use Rattle.line_link.specs.declared.line_buffer.TheConstants.{BUFFER_BYTES};

    ghost Value = { AtHand };

    ghost view = { λ b. record { bytes = drop b.from b.buffer.items; said = take (b.said_to - b.said_from) (drop b.said_from b.buffer.items) } };

    ghost invariant = { λ b.
        (b.from ≤ length b.buffer.items)
        × (b.said_from ≤ b.said_to)
        × (b.said_to ≤ length b.buffer.items)
        × (BUFFER_BYTES ≤ vec_capacity b.buffer) };
}

impl LineBuffer {
    // No bytes are at hand.
    pub(crate) fn new(alloc: Global) -> Result<LineBuffer, Memory>
        ensures { IfOk result (λ lines. lines ≡ record { bytes = []; said = [] }) }
    {
        Ok(LineBuffer {
            buffer: Vec::with_capacity(alloc, BUFFER_BYTES)?,
            from: 0,
            said_from: 0,
            said_to: 0,
        })
    }

    // Takes the first line from the bytes at hand; where there is none, says the bytes and keeps them.
    pub(crate) fn take_line(&mut self) -> Found
        ensures { IsFound self.old.bytes result self.new.said self.new.bytes }
    {
        let piece = piece_of(&self.buffer[self.from..]);
        self.said_from = self.from;
        self.said_to = self.from + piece.said;
        self.from += piece.taken;
        piece.found
    }

    // Adds bytes at the end; nothing is said then.
    pub(crate) fn add(&mut self, more: &[u8])
        requires few { length self.old.bytes ≤ MOST_HEARD_BYTES }
        requires short { length more.now ≤ READ_BYTES }
        ensures { self.new ≡ record { bytes = self.old.bytes ++ more.now; said = [] } }
    {
        let left = self.buffer.len() - self.from;
        self.buffer.copy_within(self.from.., 0);
        self.buffer.truncate(left);
        self.from = 0;
        self.said_from = 0;
        self.said_to = 0;
        let _ = self.buffer.extend_from_slice(more);
    }

    // Nothing is said.
    pub(crate) fn hush(&mut self)
        ensures { self.new ≡ record { bytes = self.old.bytes; said = [] } }
    {
        self.said_from = 0;
        self.said_to = 0;
    }

    // Whether no bytes are at hand.
    pub(crate) fn is_empty(&self) -> bool
        ensures { IsTrue result ↔ (self.now.bytes ≡ []) }
    {
        self.buffer[self.from..].is_empty()
    }

    // What is said.
    pub(crate) fn said(&self) -> &[u8]
        ensures { result.now ≡ self.now.said }
    {
        &self.buffer[self.said_from..self.said_to]
    }
}

// What bytes begin with: how many of them are said, and how many are taken.
#[derive(Clone, Copy)]
struct Piece {
    found: Found,
    said: usize,
    taken: usize,
}

fn piece_of(bytes: &[u8]) -> Piece
    ensures said { result.said ≤ length bytes.now }
    ensures taken { result.taken ≤ length bytes.now }
    ensures found { IsFound bytes.now result.found (take result.said bytes.now) (drop result.taken bytes.now) }
{
    let front = front_of(bytes);
    if let Some((line, _)) = cut_at(front, b'\n') {
        return Piece {
            found: Found::Line,
            said: without_cr_len(line),
            taken: line.len() + 1,
        };
    }
    Piece {
        found: if front.len() > MOST_HEARD_BYTES {
            Found::Long
        } else {
            Found::Part
        },
        said: front.len(),
        taken: 0,
    }
}

// As many bytes as tell whether a line is too long.
fn front_of(bytes: &[u8]) -> &[u8]
    ensures { result.now ≡ take (MOST_HEARD_BYTES + 1) bytes.now }
{
    if bytes.len() > MOST_HEARD_BYTES {
        &bytes[..=MOST_HEARD_BYTES]
    } else {
        bytes
    }
}

// How many bytes a line has without one CR at its end.
fn without_cr_len(line: &[u8]) -> usize
    ensures within { result ≤ length line.now }
    ensures line { take result line.now ≡ without_cr line.now }
{
    match line.split_last() {
        Some((last, _)) if *last == b'\r' => line.len() - 1,
        _ => line.len(),
    }
}
