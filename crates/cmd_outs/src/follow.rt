//! Where a trace leads.
ghost use Rattle.std.specs.Prelude.{◌≡◌, ◌≤◌, ℕ, length, All, IfOk};
ghost use Rattle.lts_base.specs.declared.limits.TheConstants.{MOST_FILE_BYTES};
ghost use Rattle.lts_base.specs.System.{IsItemOf};
ghost use Rattle.cmd_outs.specs.Followed.{LeadsTo};

use lts_base::{Item, Lts, Memory, Mode};
use state_sets::{Search, StateSet, allows, opening_with, post_with};
use std::alloc::Global;

/// Where a trace leads.
#[derive(Drop, Debug)]
pub(crate) enum Followed {
    /// To these states.
    States(StateSet),
    /// The prefix that ends at this place, counted from 1, is the first that isn't allowed.
    Absent(u32),
}

/// Where the trace leads, by its allowed prefixes.
pub(crate) fn follow(
    alloc: Global,
    mode: Mode,
    lts: &Lts,
    trace: &[Item],
) -> Result<Followed, Memory>
    requires items { All (IsItemOf lts.now) trace.now }
    requires few { length trace.now ≤ MOST_FILE_BYTES }
    ensures { IfOk result (LeadsTo mode lts.now trace.now) }
{
    let states = lts.states();
    let mut search = Search::new(alloc, states)?;
    let mut set = opening_with(alloc, lts, &mut search)?;
    let mut place: u32 = 0;
    'items: for item in trace {
        place += 1;
        if !allows(lts, mode, &set, *item) {
            return Ok(Followed::Absent(place));
        }
        set = post_with(alloc, lts, &mut search, &set, *item)?;
    }
    Ok(Followed::States(set))
}
