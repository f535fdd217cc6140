//! The session over a link that is dialled, and its report.
ghost use Rattle.std.specs.Prelude.{◌≡◌, ℕ, ◌<◌, [], IfOk, IfSome};
ghost use Rattle.edge_io.specs.Dials.{HungUp, IsNewLink, KeepsDialer};
ghost use Rattle.edge_io.specs.Outside.{Grew};
ghost use Rattle.lts_base.specs.Alphabet.{IsOver as IsSystemOver};
ghost use Rattle.log_text.specs.declared.limits.TheConstants.{MOST_PATIENCE, MOST_STEPS};
ghost use Rattle.log_text.specs.Logs.{IsHead, IsLog, IsOneTo};
ghost use Rattle.session_core.specs.Table.{opening};
ghost use Rattle.tool_base.specs.Kinds.{IsWithinSteps};
ghost use Rattle.walk_core.specs.Walked.{IsFresh};
ghost use Rattle.cmd_drive.specs.Asked.{AskedDrive, drive_from, IsInRange};
ghost use Rattle.cmd_drive.specs.Dialled.{dialled as dialled_by};
ghost use Rattle.cmd_drive.specs.Drive.{ending_by, rules_by, IsLed, IsOpened, IsOutcomeOf};
ghost use Rattle.cmd_drive.specs.Given.{DialsNow, IsFit, IsOver, IsReportOf, IsReportOn, IsSessionReport, full_log};

use crate::files::{Guiding, Setting};
use crate::guide::Guide;
use crate::outcome::DriveOutcome;
use crate::words::Drive;
use edge_io::{DialError, Dialer};
use log_text::{Ending, Head, Log, Named, print_named};
use lts_base::{Labels, Listed, Memory, Mode};
use session_core::drive::drive;
use session_core::{DriveError, Session, Setup, Verdict};
use std::alloc::Global;
use std::marker::Brand;
use std::sync::ledger::{Blank, Ledger};
use tool_base::Report;
use walk_core::{LazyWalk, Steps, Walk, WalkError};

/// The report on the session that is asked for. The walk is made before the link is dialled.
pub(crate) fn session_report<D: Dialer>(
    alloc: Global,
    dialer: &mut D,
    request: &Drive<'_>,
    setting: Setting,
) -> Result<Report<DriveOutcome>, Memory>
    requires range { IsInRange (drive_from request.now) }
    requires fit { IsFit request.now.steps setting }
    ensures report { IfOk result (IsReportOf (dialled_by D.Link.gives (D.told dialer.old) (D.told dialer.new)) (drive_from request.now) setting) }
    ensures dials { DialsNow (drive_from request.now) (D.told dialer.old) (D.told dialer.new) }
{
    let Setting {
        labels,
        system,
        digest,
        guiding,
    } = setting;
    let head = Head::Two {
        divergence: request.divergence,
        spec: digest,
    };
    match LazyWalk::new(alloc, &system, request.members) {
        Ok(walk) => begun(alloc, dialer, request, &labels, walk, guiding, &head),
        Err(WalkError::Full { reached }) => unbegun(alloc, bounds_of(request), &head, reached),
        Err(WalkError::Memory) => Err(Memory),
    }
}

/// What a session is bounded by.
#[derive(Clone, Copy, Debug)]
pub(crate) struct Bounds {
    /// The conformance relation.
    pub(crate) mode: Mode,
    /// How many idle reads in a row count as quiescence.
    pub(crate) patience: u32,
    /// The most items.
    pub(crate) steps: u32,
}

fn bounds_of(request: &Drive<'_>) -> Bounds
    ensures { result ≡ record { mode = request.now.mode; patience = request.now.patience; steps = request.now.steps } }
{
    Bounds {
        mode: request.mode,
        patience: request.patience,
        steps: request.steps,
    }
}

/// The report where the set after the empty trace alone has too many members.
pub(crate) fn unbegun(
    alloc: Global,
    bounds: Bounds,
    head: &Head,
    reached: u64,
) -> Result<Report<DriveOutcome>, Memory>
    requires steps { IsOneTo MOST_STEPS bounds.steps }
    requires patience { IsOneTo MOST_PATIENCE bounds.patience }
    requires head { IsHead head.now }
    ensures { IfOk result (IsReportOn head.now (full_log bounds) (DriveOutcome.Full reached)) }
{
    let log = Log {
        mode: bounds.mode,
        patience: bounds.patience,
        steps: bounds.steps,
        entries: Listed::new(alloc),
        left: Listed::new(alloc),
        ending: Ending::Full,
    };
    reported(alloc, head, log, DriveOutcome::Full { reached })
}

/// The report where the walk has begun.
fn begun<D: Dialer, W: Walk>(
    alloc: Global,
    dialer: &mut D,
    request: &Drive<'_>,
    labels: &Labels,
    walk: W,
    guiding: Guiding,
    head: &Head,
) -> Result<Report<DriveOutcome>, Memory>
where
    W: Drop,
    requires fresh { IsFresh (W.walked walk) }
    requires limit { (W.walked walk).limit ≡ request.now.members }
    requires over { IsSystemOver labels.now (W.walked walk).system }
    requires range { IsInRange (drive_from request.now) }
    requires goal { IfSome guiding.goal (IsWithinSteps request.now.steps) }
    requires head { IsHead head.now }
    ensures report { IfOk result (IsSessionReport (dialled_by D.Link.gives (D.told dialer.old) (D.told dialer.new)) (drive_from request.now) (rules_by (drive_from request.now) labels.now (W.walked walk).system guiding.goal) guiding.guide head.now) }
    ensures dials { DialsNow (drive_from request.now) (D.told dialer.old) (D.told dialer.new) }
{
    let Guiding { guide, goal } = guiding;
    let setup = Setup {
        mode: request.mode,
        patience: request.patience,
        steps: request.steps,
        goal,
    };
    let mut session = Session::new(alloc, labels, walk, setup)?;
    let outcome = dialled(dialer, request, &mut session, guide)?;
    let log = session.log(alloc, ending_of(outcome))?;
    reported(alloc, head, log, outcome)
}

/// What the log ends with where the session has no verdict.
pub(crate) fn ending_of(outcome: DriveOutcome) -> Ending
    ensures { result ≡ ending_by outcome }
{
    match outcome {
        DriveOutcome::Full { .. } => Ending::Full,
        DriveOutcome::Ended { .. } | DriveOutcome::Broken => Ending::Broken,
    }
}

/// The report of this outcome with the text of this log.
pub(crate) fn reported(
    alloc: Global,
    head: &Head,
    log: Log,
    outcome: DriveOutcome,
) -> Result<Report<DriveOutcome>, Memory>
    requires head { IsHead head.now }
    requires log { IsLog log }
    ensures { IfOk result (IsReportOn head.now log outcome) }
{
    let text = print_named(alloc, &Named { head: *head, log })?;
    Ok(Report { outcome, text })
}

/// Dials, and drives the session over the link.
fn dialled<D: Dialer, W: Walk>(
    dialer: &mut D,
    request: &Drive<'_>,
    session: &mut Session<'_, W>,
    guide: Guide,
) -> Result<DriveOutcome, Memory>
    requires opened { IsOpened (drive_from request.now) session.old.rules session.old }
    ensures over { IfOk result (λ o. IsOver (dialled_by D.Link.gives (D.told dialer.old) (D.told dialer.new)) (drive_from request.now) session.old.rules guide o session.new.sitting) }
    ensures rules { session.new.rules ≡ session.old.rules }
    ensures dials { DialsNow (drive_from request.now) (D.told dialer.old) (D.told dialer.new) }
{
    match dialer.dial(request.address, request.tick) {
        Ok(link) => linked::<D, W, Brand>(dialer, link, session, guide, Blank::new(1)),
        Err(DialError::Failed) => Ok(DriveOutcome::Broken),
        Err(DialError::Memory) => Err(Memory),
    }
}

/// Drives the session over the link, and hangs it up.
fn linked<D: Dialer, W: Walk, L: Ledger>(
    dialer: &mut D,
    link: D::Link,
    session: &mut Session<'_, W>,
    guide: Guide,
    blank: Blank,
) -> Result<DriveOutcome, Memory>
    requires name { blank.name ≡ L.name }
    requires parts { blank.parts ≡ L.parts }
    requires blank { 0 < blank.parts }
    requires new { IsNewLink (D.Link.told link) }
    requires opening { session.old.sitting ≡ opening }
    ensures led { IfOk result (λ o. (q : AskedDrive) → IsOpened q session.old.rules session.old → IsLed (dialled_by D.Link.gives (D.told dialer.old) (D.told dialer.new)) q session.old.rules guide o session.new.sitting) }
    ensures rules { session.new.rules ≡ session.old.rules }
    ensures asked { (D.told dialer.new).asked ≡ (D.told dialer.old).asked }
    ensures dialled { (D.told dialer.new).dialled ≡ (D.told dialer.old).dialled }
    ensures ended { (entry : HungUp) × Grew (D.told dialer.old).ended (D.told dialer.new).ended entry }
    ensures keeps { KeepsDialer (D.told dialer.old) (D.told dialer.new) }
{
    let mut steps = Steps::<L>::new(blank);
    let mut chooser = guide;
    let mut link = link;
    let result = drive(session, &mut chooser, &mut link, &mut steps);
    dialer.hang_up(link);
    outcome_of(result)
}

/// The outcome of a drive.
fn outcome_of(driven: Result<Verdict, DriveError>) -> Result<DriveOutcome, Memory>
    ensures { IfOk result (IsOutcomeOf driven) }
{
    match driven {
        Ok(verdict) => Ok(DriveOutcome::Ended { verdict }),
        Err(DriveError::Broken) => Ok(DriveOutcome::Broken),
        Err(DriveError::Full { reached }) => Ok(DriveOutcome::Full { reached }),
        Err(DriveError::Memory) => Err(Memory),
    }
}
