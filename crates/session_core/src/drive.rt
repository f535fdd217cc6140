//! A session that is driven to its end.
ghost use Rattle.std.specs.Prelude.{◌≡◌, ℕ, ◌≤◌, List, [], IfErr, IfOk, OnOk};
ghost use Rattle.edge_io.specs.Links.{KeepsLink, LinkFails, LinkIdles};
ghost use Rattle.session_core.specs.Table.{opening};
ghost use Rattle.session_core.specs.Driven.{IsDriveOf, IsLoggedDriveOf};
ghost use Rattle.session_core.specs.Stalls.{StallsIdle};

use crate::event::Action;
use crate::session::Session;
use crate::turn::{DriveError, turn_one};
use crate::verdict::Verdict;
use edge_io::Link;
use std::sync::ledger::Ledger;
use walk_core::{Choose, Steps, Walk};

/// Drives a session to its end, or to the first refusal.
pub fn drive_on<W: Walk, C: Choose, K: Link, L: Ledger>(
    session: &mut Session<'_, W>,
    chooser: &mut C,
    link: &mut K,
    steps: &mut Steps<L>,
) -> Result<Verdict, DriveError>
    ensures driven { IsDriveOf C.answer K.gives K.state K.told session.old chooser.old link.old result session.new chooser.new link.new }
    ensures broken { IfErr result (λ e. e ≡ DriveError.Broken → LinkFails (K.told link.old) (K.told link.new)) }
    ensures stalled { OnOk result (StallsIdle session.old.sitting.phase (K.told link.old) session.new.sitting.phase (K.told link.new)) }
    ensures later { KeepsLink (K.told link.old) (K.told link.new) }
{
    loop {
        if let Action::Done(verdict) = session.next() {
            return Ok(verdict);
        }
        match turn_one(session, chooser, link, steps) {
            Ok(()) => {}
            Err(error) => return Err(error),
        }
    }
}

/// Drives a new session to its end, or to the first refusal. It gives the session exactly the
/// answers of the chooser and of the link, each once and in order.
pub fn drive<W: Walk, C: Choose, K: Link, L: Ledger>(
    session: &mut Session<'_, W>,
    chooser: &mut C,
    link: &mut K,
    steps: &mut Steps<L>,
) -> Result<Verdict, DriveError>
    requires begins { session.old.sitting ≡ opening }
    ensures logged { IsLoggedDriveOf C.answer K.gives K.state K.told session.old chooser.old link.old result session.new chooser.new link.new }
    ensures broken { IfErr result (λ e. e ≡ DriveError.Broken → LinkFails (K.told link.old) (K.told link.new)) }
    ensures stalled { IfOk result (λ v. v ≡ Verdict.Stalled → LinkIdles (K.told link.old) (K.told link.new)) }
    ensures later { KeepsLink (K.told link.old) (K.told link.new) }
{
    // the call tells that the patience is at least 1
    let _ = session.next();
    drive_on(session, chooser, link, steps)
}
