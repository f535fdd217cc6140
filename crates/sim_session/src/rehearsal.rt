//! A session that is driven over a simulated implementation.
ghost use Rattle.std.specs.Prelude.{◌≡◌, ℕ, Err};
ghost use Rattle.session_core.specs.Table.{opening};
ghost use Rattle.sim_session.specs.Rehearsed.{AreJoined, IsRehearsal, IsRehearsed, drive_result};

use crate::sure_sim::SureSim;
use rand_core::utils::NextWord;
use session_core::drive::drive;
use session_core::{DriveError, Session, Verdict};
use sim_core::SimLink;
use std::sync::ledger::Ledger;
use walk_core::{Choose, Steps, Walk, WalkError};

/// Drives a new session over a new simulation, to its end or to the first refusal of the session's
/// walk. The items of the session are a trace of the simulated system, and where the session fails
/// its last item violates the specification.
pub fn rehearse<W: Walk, C: Choose, R: NextWord<u32> + Drop, L: Ledger>(
    session: &mut Session<'_, W>,
    chooser: &mut C,
    link: SimLink<'_, R>,
    steps: &mut Steps<L>,
) -> Result<Verdict, WalkError>
    requires begins { session.old.sitting ≡ opening }
    requires joined { AreJoined session.old.rules link.simulated }
    ensures went { IsRehearsal C.answer R.step session.old chooser.old link.entry.simulated result session.new chooser.new }
    ensures rehearsed { IsRehearsed session.old.rules link.entry.simulated.system session.new.sitting }
{
    let mut sure = SureSim { sim: link };
    let driven = drive(session, chooser, &mut sure, steps);
    unbroken(driven)
}

/// The result of a drive that didn't break.
fn unbroken(driven: Result<Verdict, DriveError>) -> Result<Verdict, WalkError>
    requires { ¬ (driven ≡ Err DriveError.Broken) }
    ensures { drive_result result ≡ driven }
{
    match driven {
        Ok(verdict) => Ok(verdict),
        Err(DriveError::Full { reached }) => Err(WalkError::Full { reached }),
        Err(DriveError::Memory) => Err(WalkError::Memory),
        Err(DriveError::Broken) => unreachable!(),
    }
}
