//! One turn of a session that is driven.
ghost use Rattle.std.specs.Prelude.{◌≡◌, ℕ, ◌≤◌, List, IfErr, OnOk};
ghost use Rattle.edge_io.specs.Links.{KeepsLink, LinkFails};
ghost use Rattle.session_core.specs.Table.{IsOpen};
ghost use Rattle.session_core.specs.Fitting.{told};
ghost use Rattle.session_core.specs.Driven.{told_of, IsTurnOf};
ghost use Rattle.session_core.specs.Stalls.{StallsIdle};

use crate::event::{Action, Event};
use crate::session::Session;
use edge_io::{Failed, Heard, Link};
use std::sync::ledger::Ledger;
use walk_core::{Choose, Steps, Walk, WalkError};

/// Why a session was not driven on.
#[derive(Clone, Copy, PartialEq, Eq, Debug)]
pub enum DriveError {
    /// The link failed.
    Broken,
    /// The sets of the session would have `reached` members, above the limit.
    Full {
        /// That number.
        reached: u64,
    },
    /// Memory ran out.
    Memory,
}

impl From<Failed> for DriveError {
    ghost use Rattle.std.specs.Prelude.{◌≡◌};
    ghost use Rattle.session_core.specs.declared.turn.DriveError.TheVariants.{Broken as IsBroken};

    ghost from_gives = { λ _ e. e ≡ IsBroken };

    fn from(_error: Failed) -> DriveError {
        DriveError::Broken
    }
}

impl From<WalkError> for DriveError {
    ghost use Rattle.std.specs.Prelude.{◌≡◌};
    ghost use Rattle.session_core.specs.Stopping.{drive_error};

    ghost from_gives = { λ error e. e ≡ drive_error error };

    fn from(error: WalkError) -> DriveError {
        match error {
            WalkError::Full { reached } => DriveError::Full { reached },
            WalkError::Memory => DriveError::Memory,
        }
    }
}

/// The answer of a link as an event.
fn event_of(heard: Heard, text: &[u8]) -> Event<'_>
    ensures { told result ≡ told_of heard text.now }
{
    match heard {
        Heard::Line => Event::Line(text),
        Heard::Idle => Event::Idle,
        Heard::IdleMid => Event::IdleMid(text),
        Heard::TooLong => Event::TooLong(text),
        Heard::End => Event::End(text),
    }
}

/// One deed, by what the session waits for: its chooser is asked, or its link looks, sends or
/// hears; and the session takes the event. Broken comes only where the link failed, and then the
/// session is as before; so it is after the other errors, which are those of the session. A session
/// stalls only where the link's count of idle answers rose.
pub fn turn_one<W: Walk, C: Choose, K: Link, L: Ledger>(
    session: &mut Session<'_, W>,
    chooser: &mut C,
    link: &mut K,
    steps: &mut Steps<L>,
) -> Result<(), DriveError>
    requires open { IsOpen session.old.sitting.phase }
    ensures turned { IsTurnOf C.answer K.gives K.state K.told session.old chooser.old link.old result session.new chooser.new link.new }
    ensures broken { IfErr result (λ e. e ≡ DriveError.Broken → LinkFails (K.told link.old) (K.told link.new)) }
    ensures stalled { OnOk result (StallsIdle session.old.sitting.phase (K.told link.old) session.new.sitting.phase (K.told link.new)) }
    ensures later { KeepsLink (K.told link.old) (K.told link.new) }
{
    match session.next() {
        Action::Ask => {
            let choice = chooser.choose(session.offers(), session.items());
            session.event(&Event::Choice(choice), steps)?;
        }
        Action::Look => {
            let heard = link.look()?;
            session.event(&event_of(heard, link.text()), steps)?;
        }
        Action::Send(input) => {
            link.send(session.text(input))?;
            session.event(&Event::Sent, steps)?;
        }
        Action::Hear => {
            let heard = link.hear()?;
            session.event(&event_of(heard, link.text()), steps)?;
        }
        Action::Done(_) => {}
    }
    Ok(())
}
