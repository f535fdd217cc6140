//! The files of `drive`: the specification, and the script or the goal.
ghost use Rattle.std.specs.Prelude.{◌≡◌, IfOk, IfSome, None};
ghost use Rattle.edge_io.specs.Outside.{KeepsFiles};
ghost use Rattle.tool_base.specs.Kinds.{IsWithinSteps};
ghost use Rattle.cmd_drive.specs.Asked.{drive_from};
ghost use Rattle.cmd_drive.specs.Given.{IsFit, LoadsGuide, LoadsSetting};
ghost use Rattle.cmd_drive.specs.Guides.{seeded as seeded_guide};

use crate::guide::Guide;
use crate::words::{Drive, Guidance};
use edge_io::Files;
use log_text::Digest;
use lts_base::{Labels, Listed, Lts, Memory, Trace};
use rand_core::SeedableRng;
use rand_pcg::Lcg64Xsh32;
use session_core::{Guided, Scripted, Seeded};
use std::alloc::Global;
use tool_base::{DigestedSystem, Stop, digested_system, load_goal, load_script};

/// What makes the choices, and the goal of the session, where it has one.
#[derive(Drop)]
pub(crate) struct Guiding {
    /// The chooser.
    pub guide: Guide,
    /// The goal.
    pub goal: Option<Trace>,
}

/// What a session is made of.
#[derive(Drop)]
pub(crate) struct Setting {
    /// The alphabet.
    pub labels: Labels,
    /// The specification.
    pub system: Lts,
    /// The digest of its file.
    pub digest: Digest,
    /// The chooser, and the goal.
    pub guiding: Guiding,
}

/// What the files that are asked for hold.
pub(crate) fn load_setting<F: Files>(
    alloc: Global,
    files: &mut F,
    request: &Drive<'_>,
) -> Result<Setting, Stop>
    ensures loaded { LoadsSetting (F.told files.old) (F.told files.new) (drive_from request.now) result }
    ensures fit { IfOk result (IsFit request.now.steps) }
    ensures keeps { KeepsFiles (F.told files.old) (F.told files.new) }
{
    let one = digested_system(
        alloc,
        files,
        request.spec,
        request.sorting,
        request.divergence,
    )?;
    let guiding = load_guide(alloc, files, request, &one.labels)?;
    let DigestedSystem {
        labels,
        system,
        digest,
    } = one;
    Ok(Setting {
        labels,
        system,
        digest,
        guiding,
    })
}

/// The chooser that is asked for.
fn load_guide<F: Files>(
    alloc: Global,
    files: &mut F,
    request: &Drive<'_>,
    labels: &Labels,
) -> Result<Guiding, Stop>
    ensures loaded { LoadsGuide (F.told files.old) (F.told files.new) labels.now (drive_from request.now) result }
    ensures goal { IfOk result (λ g. IfSome g.goal (IsWithinSteps request.now.steps)) }
    ensures keeps { KeepsFiles (F.told files.old) (F.told files.new) }
{
    match request.guidance {
        Guidance::Seed(number) => Ok(seeded(number)),
        Guidance::Script(name) => {
            let script = load_script(alloc, files, name, labels)?;
            Ok(Guiding {
                guide: Guide::Scripted(Scripted::new(script)),
                goal: None,
            })
        }
        Guidance::Goal(name) => {
            let goal = load_goal(alloc, files, name, labels, request.steps)?;
            let copy = copied(alloc, &goal)?;
            Ok(Guiding {
                guide: Guide::Guided(Guided::new(copy)),
                goal: Some(goal),
            })
        }
    }
}

/// A chooser that draws, with the generator of this number.
pub(crate) fn seeded(number: u64) -> Guiding
    ensures { result ≡ record { guide = seeded_guide number; goal = None } }
{
    Guiding {
        guide: Guide::Seeded(Seeded::new(Lcg64Xsh32::seed_from_u64(number))),
        goal: None,
    }
}

/// The same trace once more.
fn copied(alloc: Global, trace: &Trace) -> Result<Trace, Memory>
    ensures { IfOk result (λ copy. copy ≡ trace.now) }
{
    Ok(Listed::from_vec(Vec::from_slice(alloc, trace.as_slice())?))
}
