//! What was asked of a dialer in memory.
ghost use Rattle.std.specs.Prelude.{◌≡◌, [], IfOk, Some};
ghost use Rattle.edge_io.specs.DialersInMemory.{after_asking};
ghost use Rattle.edge_io.specs.Outside.{Grew};

use crate::content::Room;
use crate::dialer::DialError;
use crate::kept::Kept;
use lts_base::Memory;
use std::alloc::Global;
use std::marker::Model;

/// A dial without its address.
#[derive(Clone, Copy, Debug, Drop)]
pub(crate) struct Asked {
    /// Its tick.
    pub(crate) tick: u32,
    /// Why it gave no link, where it gave none.
    pub(crate) refused: Option<DialError>,
}

/// The dials, while there is room for them.
#[derive(Drop, Debug)]
pub(crate) struct Asks {
    kept: Kept<Asked>,
    told: bool,
}

impl Model for Asks {
    ghost use Rattle.edge_io.specs.DialersInMemory.{Asking};
    ghost use Rattle.edge_io.specs.KeptDials.{asking_of};

    ghost Value = { Asking };

    ghost view = { λ a. asking_of a.kept a.told };
}

impl Asks {
    // No dial yet, and room for so many.
    pub(crate) fn new(alloc: Global, room: Room) -> Result<Asks, Memory>
        ensures { IfOk result (λ asks. asks ≡ record { list = Some []; left = room }) }
    {
        Ok(Asks {
            kept: Kept::new(alloc, room)?,
            told: true,
        })
    }

    // Keeps one more dial; where there is no room for it, the list isn't told any more.
    pub(crate) fn add(&mut self, address: &str, tick: u32, refused: Option<DialError>)
        ensures after { self.new ≡ after_asking self.old (record { address = address.now; tick = tick; refused = refused }) }
        ensures grew { Grew self.old.list self.new.list (record { address = address.now; tick = tick; refused = refused }) }
    {
        if !self.kept.add(Asked { tick, refused }, address.as_bytes()) {
            self.told = false;
        }
    }
}
