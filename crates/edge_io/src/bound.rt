//! The addresses to which a door in memory was bound.
ghost use Rattle.std.specs.Prelude.{◌≡◌, [], IfOk, Some};
ghost use Rattle.edge_io.specs.DoorsInMemory.{after_binding};
ghost use Rattle.edge_io.specs.Outside.{Grew};

use crate::content::Room;
use crate::kept::Kept;
use lts_base::Memory;
use std::alloc::Global;
use std::marker::Model;

/// A bind without its address.
#[derive(Clone, Copy, Debug, Drop)]
pub(crate) struct Bound;

/// The addresses, while there is room for them.
#[derive(Drop, Debug)]
pub(crate) struct Binds {
    kept: Kept<Bound>,
    told: bool,
}

impl Model for Binds {
    ghost use Rattle.edge_io.specs.DoorsInMemory.{Binding};
    ghost use Rattle.edge_io.specs.KeptBinds.{binding_of};

    ghost Value = { Binding };

    ghost view = { λ b. binding_of b.kept b.told };
}

impl Binds {
    // No bind yet, and room for so many.
    pub(crate) fn new(alloc: Global, room: Room) -> Result<Binds, Memory>
        ensures { IfOk result (λ binds. binds ≡ record { list = Some []; left = room }) }
    {
        Ok(Binds {
            kept: Kept::new(alloc, room)?,
            told: true,
        })
    }

    // Keeps one more address; where there is no room for it, the list isn't told any more.
    pub(crate) fn add(&mut self, address: &str)
        ensures after { self.new ≡ after_binding self.old address.now }
        ensures grew { Grew self.old.list self.new.list address.now }
    {
        if !self.kept.add(Bound, address.as_bytes()) {
            self.told = false;
        }
    }
}
