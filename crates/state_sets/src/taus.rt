//! Which states a move with Tau leaves.
ghost use Rattle.std.specs.Prelude.{◌≡◌, ◌<◌, false, length, IfOk, slice_index_or as get_or};
ghost use Rattle.state_sets.specs.Taus.{AreTauFlags};

use crate::offers::has_move;
use lts_base::{Act, Lts, Memory};
use std::alloc::Global;
use std::marker::Model;

/// For each state of a system whether a move with Tau leaves it. Whoever steps often keeps these
/// flags, so that no step looks at the moves of a stable state that it finds.
#[derive(Drop, Debug)]
pub struct Taus {
    flags: Vec<bool>,
}

impl Model for Taus {
    ghost use Rattle.std.specs.Prelude.{List, Bool};

    ghost Value = { List Bool };

    ghost view = { λ a. a.flags.items };
}

impl Taus {
    /// The flags of the system.
    pub fn new(alloc: Global, lts: &Lts) -> Result<Taus, Memory>
        ensures { IfOk result (AreTauFlags lts.now) }
    {
        let count = lts.states();
        let mut flags = Vec::with_capacity(alloc, count as usize)?;
        'states: for state in 0..count {
            let leaves = has_move(lts, state, Act::Tau);
            flags.push(leaves)?;
        }
        Ok(Taus { flags })
    }

    /// Whether a move with Tau leaves the state.
    pub fn leaves(&self, state: u32) -> bool
        requires { state < length self.now }
        ensures { result ≡ get_or self.now state false }
    {
        self.flags[state as usize]
    }
}
