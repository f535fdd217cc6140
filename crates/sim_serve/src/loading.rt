//! The implementation that is to be simulated.
ghost use Rattle.std.specs.Prelude.{◌≡◌, ◌<◌, length, IfOk, MatchResult};
ghost use Rattle.edge_io.specs.Outside.{KeepsFiles};
ghost use Rattle.tool_base.specs.Loaded.{IsOneOver};
ghost use Rattle.sim_serve.specs.Loaded.{CanServe, IsEnabled, IsLackingReport, LoadsImp};
ghost use Rattle.sim_serve.specs.Report.{IsOrNoMemory, lacking_report};

use crate::report::{no_memory, stopped};
use crate::status::SimStatus;
use cmd_check::lacking_text;
use edge_io::Files;
use lts_base::{Divergence, Labels, Memory};
use lts_shape::missing_input;
use std::alloc::Global;
use tool_base::{OneSystem, Report, loaded_name, one_system};
use torx_words::Sorting;

/// The system of the file, where it can be simulated; else what is answered.
pub(crate) fn load<F: Files>(
    alloc: Global,
    files: &mut F,
    name: &str,
) -> Result<OneSystem, Report<SimStatus>>
    ensures loaded { LoadsImp (F.told files.old) (F.told files.new) name.now result }
    ensures able { IfOk result CanServe }
    ensures keeps { KeepsFiles (F.told files.old) (F.told files.new) }
{
    match one_system(alloc, files, name, Sorting::Prefix, Divergence::Refuse) {
        Ok(imp) => enabled(alloc, name, imp),
        Err(stop) => Err(stopped(alloc, stop)),
    }
}

/// The system, where it is input-enabled.
fn enabled(alloc: Global, name: &str, imp: OneSystem) -> Result<OneSystem, Report<SimStatus>>
    requires over { IsOneOver imp }
    ensures { MatchResult result (IsEnabled imp) (IsLackingReport name.now imp) }
{
    let Ok(found) = missing_input(alloc, &imp.system) else {
        return Err(no_memory(alloc));
    };
    if let Some((state, label)) = found {
        return Err(lacking(alloc, name, &imp.labels, state, label));
    }
    Ok(imp)
}

/// The report that the system lacks an input.
fn lacking(alloc: Global, name: &str, labels: &Labels, state: u32, label: u32) -> Report<SimStatus>
    requires { label < length labels.now.texts }
    ensures { IsOrNoMemory (lacking_report labels.now.texts name.now state label) result }
{
    match told_lacking(alloc, name, labels, state, label) {
        Ok(report) => report,
        Err(_) => no_memory(alloc),
    }
}

/// The same, or want of memory.
fn told_lacking(
    alloc: Global,
    name: &str,
    labels: &Labels,
    state: u32,
    label: u32,
) -> Result<Report<SimStatus>, Memory>
    requires { label < length labels.now.texts }
    ensures { IfOk result (λ report. report ≡ lacking_report labels.now.texts name.now state label) }
{
    let text = lacking_text(alloc, labels, name.as_bytes(), state, label)?;
    let name = loaded_name(alloc, name)?;
    Ok(Report {
        outcome: SimStatus::NotEnabled { name, state, label },
        text,
    })
}
