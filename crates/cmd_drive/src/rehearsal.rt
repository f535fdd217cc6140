//! The session over a simulated implementation, and its report.
ghost use Rattle.std.specs.Prelude.{◌≡◌, ℕ, ◌<◌, length, IfOk, None};
ghost use Rattle.lts_base.specs.Alphabet.{IsOver as IsSystemOver};
ghost use Rattle.lts_base.specs.Shape.{IsInputEnabled, IsConvergentOrQuiet};
ghost use Rattle.log_text.specs.Logs.{IsHead};
ghost use Rattle.session_core.specs.Table.{opening};
ghost use Rattle.walk_core.specs.Walked.{IsFresh};
ghost use Rattle.cmd_check.specs.declared.outcome.CheckOutcome.TheVariants.{NotEnabled as Lacking};
ghost use Rattle.cmd_drive.specs.AskedRehearse.{rehearse_from, IsRehearseInRange};
ghost use Rattle.cmd_drive.specs.Rehearse.{rehearse_rules};
ghost use Rattle.cmd_drive.specs.Simulating.{IsFitPair, IsLackingReport, IsPairReport, IsSimulationReport, IsWalkReport, Simulates};

use crate::files::{Guiding, seeded};
use crate::outcome::DriveOutcome;
use crate::rehearse_outcome::RehearseOutcome;
use crate::rehearse_words::Rehearse;
use crate::session::{Bounds, ending_of, reported, unbegun};
use cmd_check::lacking_text;
use log_text::Head;
use lts_base::{Labels, Lts, Memory};
use lts_shape::missing_input;
use rand_core::SeedableRng;
use rand_pcg::Lcg64Xsh32;
use session_core::{Session, Setup};
use sim_core::SimLink;
use sim_session::rehearse;
use std::alloc::Global;
use std::marker::Brand;
use std::sync::ledger::{Blank, Ledger};
use tool_base::{DigestedPair, Report, loaded_name};
use walk_core::{LazyWalk, Steps, Walk, WalkError};

/// The report on two systems over their alphabet, the specification first.
pub(crate) fn pair_report(
    alloc: Global,
    request: &Rehearse<'_>,
    pair: &DigestedPair,
) -> Result<Report<RehearseOutcome>, Memory>
    requires range { IsRehearseInRange (rehearse_from request.now) }
    requires fit { IsFitPair pair.now }
    ensures { IfOk result (IsPairReport (rehearse_from request.now) pair.now) }
{
    if let Some((state, label)) = missing_input(alloc, &pair.second)? {
        return lacking(alloc, request.imp, &pair.labels, state, label);
    }
    let report = session_report(alloc, request, pair)?;
    Ok(Report {
        outcome: RehearseOutcome::Went {
            outcome: report.outcome,
        },
        text: report.text,
    })
}

/// The report that the implementation lacks an input.
fn lacking(
    alloc: Global,
    name: &str,
    labels: &Labels,
    state: u32,
    label: u32,
) -> Result<Report<RehearseOutcome>, Memory>
    requires { label < length labels.now.texts }
    ensures { IfOk result (IsLackingReport name.now labels.now.texts state label) }
{
    let text = lacking_text(alloc, labels, name.as_bytes(), state, label)?;
    let name = loaded_name(alloc, name)?;
    Ok(Report {
        outcome: RehearseOutcome::NotEnabled { name, state, label },
        text,
    })
}

/// The report on a session. The walk is made first.
fn session_report(
    alloc: Global,
    request: &Rehearse<'_>,
    pair: &DigestedPair,
) -> Result<Report<DriveOutcome>, Memory>
    requires range { IsRehearseInRange (rehearse_from request.now) }
    requires fit { IsFitPair pair.now }
    requires enabled { IsInputEnabled pair.now.second }
    ensures { IfOk result (IsSimulationReport (rehearse_from request.now) pair.now) }
{
    let head = Head::Two {
        divergence: request.divergence,
        spec: pair.digest,
    };
    match LazyWalk::new(alloc, &pair.first, request.members) {
        Ok(walk) => over_walk(alloc, request, pair, walk, &head),
        Err(WalkError::Full { reached }) => unbegun(alloc, bounds_of(request), &head, reached),
        Err(WalkError::Memory) => Err(Memory),
    }
}

/// What the session is bounded by.
fn bounds_of(request: &Rehearse<'_>) -> Bounds
    ensures { result ≡ record { mode = request.now.mode; patience = request.now.patience; steps = request.now.steps } }
{
    Bounds {
        mode: request.mode,
        patience: request.patience,
        steps: request.steps,
    }
}

/// The report where the walk has begun.
fn over_walk<W: Walk>(
    alloc: Global,
    request: &Rehearse<'_>,
    pair: &DigestedPair,
    walk: W,
    head: &Head,
) -> Result<Report<DriveOutcome>, Memory>
where
    W: Drop,
    requires fresh { IsFresh (W.walked walk) }
    requires limit { (W.walked walk).limit ≡ request.now.members }
    requires system { (W.walked walk).system ≡ pair.now.first }
    requires range { IsRehearseInRange (rehearse_from request.now) }
    requires fit { IsFitPair pair.now }
    requires enabled { IsInputEnabled pair.now.second }
    requires head { IsHead head.now }
    ensures { IfOk result (IsWalkReport (rehearse_from request.now) pair.now head.now) }
{
    let setup = Setup {
        mode: request.mode,
        patience: request.patience,
        steps: request.steps,
        goal: None,
    };
    let mut session = Session::new(alloc, &pair.labels, walk, setup)?;
    let outcome = simulated::<W, Brand>(alloc, request, pair, &mut session, Blank::new(1))?;
    let log = session.log(alloc, ending_of(outcome))?;
    reported(alloc, head, log, outcome)
}

/// Drives the session over a simulation.
fn simulated<W: Walk, L: Ledger>(
    alloc: Global,
    request: &Rehearse<'_>,
    pair: &DigestedPair,
    session: &mut Session<'_, W>,
    blank: Blank,
) -> Result<DriveOutcome, Memory>
    requires name { blank.name ≡ L.name }
    requires parts { blank.parts ≡ L.parts }
    requires some { 0 < blank.parts }
    requires fit { IsFitPair pair.now }
    requires enabled { IsInputEnabled pair.now.second }
    requires rules { session.old.rules ≡ rehearse_rules (rehearse_from request.now) pair.now.labels pair.now.first }
    requires opening { session.old.sitting ≡ opening }
    ensures { IfOk result (Simulates (rehearse_from request.now) pair.now session.old session.new) }
{
    let mut steps = Steps::<L>::new(blank);
    let Guiding {
        guide: mut chooser,
        ..
    } = seeded(request.seed);
    let rng = Lcg64Xsh32::seed_from_u64(request.seed.wrapping_add(1));
    let link = SimLink::new(alloc, &pair.second, &pair.labels, rng)?;
    match rehearse(session, &mut chooser, link, &mut steps) {
        Ok(verdict) => Ok(DriveOutcome::Ended { verdict }),
        Err(WalkError::Full { reached }) => Ok(DriveOutcome::Full { reached }),
        Err(WalkError::Memory) => Err(Memory),
    }
}
