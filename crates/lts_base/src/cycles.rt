//! Which states lie on cycles of internal moves.
ghost use Rattle.std.specs.Prelude.{IfOk};
ghost use Rattle.lts_base.specs.System.{AreCycleFlags};

use crate::descent::{Descent, search_from};
use crate::memory::Memory;
use crate::system::Lts;
use std::alloc::Global;

/// For each state, whether a non-empty path of internal moves leads from it to itself, in time
/// linear in the states and moves.
pub(crate) fn cycle_flags(alloc: Global, lts: &Lts) -> Result<Vec<bool>, Memory>
    ensures { IfOk result (λ v. AreCycleFlags lts.now v.items) }
{
    let states = lts.states();
    let mut descent = Descent::new(alloc, states)?;
    'roots: for root in 0..states {
        search_from(lts, &mut descent, root)?;
    }
    Ok(descent.flags)
}
