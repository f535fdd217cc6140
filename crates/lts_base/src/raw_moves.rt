//! The moves of a file, in eight bytes each where the numbers allow it.
ghost use Rattle.std.specs.Prelude.{◌≡◌, ◌<◌, ◌-◌, [], ◌∷◌, ◌++◌, length, take, OnOk, OnErr};
ghost use Rattle.lts_base.specs.Raw.{raw_move_at};

use crate::memory::Memory;
use crate::move_number::{pack, unpack};
use crate::raw::RawMove;
use std::alloc::Global;
use std::marker::Model;

/// Moves of a file, in the file's order. A move takes 8 bytes, as long as all moves before it and
/// itself have states below 2^20 and labels below 2^24 - 1, and 16 bytes else.
#[derive(Drop, Debug)]
pub struct RawMoves {
    // the first moves, as numbers
    packed: Vec<u64>,
    // the moves from the first one on that has no number
    wide: Vec<RawMove>,
}

impl Model for RawMoves {
    ghost use Rattle.std.specs.Prelude.{List, ◌++◌, map};
    ghost use Rattle.lts_base.specs.declared.raw.RawMove.{RawMove as Move};
    ghost use Rattle.lts_base.specs.MoveNumber.{unpacked};

    ghost Value = { List Move };

    ghost view = { λ a. map unpacked a.packed.items ++ a.wide.items };
}

impl RawMoves {
    /// No moves; later growth takes its memory from `alloc`.
    pub fn new(alloc: Global) -> RawMoves
        ensures { result ≡ [] }
    {
        RawMoves {
            packed: Vec::new(alloc),
            wide: Vec::new(alloc),
        }
    }

    /// How many moves there are.
    pub fn count(&self) -> usize
        ensures { result ≡ length self.now }
    {
        self.packed.len() + self.wide.len()
    }

    /// The move at a place, from 0.
    pub fn at(&self, place: usize) -> RawMove
        requires { place < length self.now }
        ensures { result ≡ raw_move_at self.now place }
    {
        let count = self.packed.len();
        if place < count {
            return unpack(self.packed[place]);
        }
        self.wide[place - count]
    }

    /// Appends one move; where memory runs out the moves are as before.
    pub fn push(&mut self, m: RawMove) -> Result<(), Memory>
        ensures ok { OnOk result (self.new ≡ self.old ++ m ∷ []) }
        ensures err { OnErr result (self.new ≡ self.old) }
    {
        if self.wide.is_empty() {
            if let Some(number) = pack(m) {
                self.packed.push(number)?;
                return Ok(());
            }
        }
        self.wide.push(m)?;
        Ok(())
    }

    /// Takes the last move off, if there is one.
    pub fn pop(&mut self)
        ensures { self.new ≡ take (length self.old - 1) self.old }
    {
        if self.wide.is_empty() {
            self.packed.pop();
            return;
        }
        self.wide.pop();
    }
}
