//! `outs`, from its words to its report.
ghost use Rattle.std.specs.Prelude.{◌≡◌, ◌≤◌, ℕ, map, string_bytes, length, All, IfOk};
ghost use Rattle.std.specs.Option.{option_map};
ghost use Rattle.edge_io.specs.Outside.{KeepsFiles};
ghost use Rattle.lts_base.specs.declared.limits.TheConstants.{MOST_FILE_BYTES};
ghost use Rattle.lts_base.specs.Alphabet.{IsOver};
ghost use Rattle.trace_text.specs.Items.{IsItem};
ghost use Rattle.tool_base.specs.Pages.{Answers, IsOnPage};
ghost use Rattle.cmd_outs.specs.Asked.{request_from};
ghost use Rattle.cmd_outs.specs.Outs.{outs_command, outs_page, IsOffered};
ghost use Rattle.cmd_outs.specs.Followed.{LoadsTrace};

use crate::follow::{Followed, follow};
use crate::offers::printed;
use crate::outcome::OutsOutcome;
use crate::text::absent;
use crate::words::{Request, read_request};
use edge_io::Files;
use lts_base::{Item, Labels, Lts, Memory, Mode, Trace};
use std::alloc::Global;
use tool_base::{Report, Stop, load_trace, one_system, words_stop};

/// Prints what the system of a file shows and allows after a trace. `words` are those after the
/// command's name.
pub fn outs<F: Files>(
    alloc: Global,
    files: &mut F,
    words: &[String],
) -> Result<Report<OutsOutcome>, Stop>
    ensures answers { Answers outs_command (map string_bytes words.now) (F.told files.old) (F.told files.new) result }
    ensures keeps { KeepsFiles (F.told files.old) (F.told files.new) }
{
    match read_request(alloc, words) {
        Ok(request) => on_files(alloc, files, &request),
        Err(error) => Err(words_stop(error)),
    }
}

/// The answer for the files that are asked for.
fn on_files<F: Files>(
    alloc: Global,
    files: &mut F,
    request: &Request<'_>,
) -> Result<Report<OutsOutcome>, Stop>
    ensures page { IsOnPage (outs_page (F.told files.old).content (request_from request.now)) (F.told files.old) (F.told files.new) result }
    ensures keeps { KeepsFiles (F.told files.old) (F.told files.new) }
{
    let one = one_system(
        alloc,
        files,
        request.spec,
        request.sorting,
        request.divergence,
    )?;
    let trace = trace_of(alloc, files, request.trace, &one.labels)?;
    let report = report(
        alloc,
        request.mode,
        &one.labels,
        &one.system,
        trace.as_slice(),
    )?;
    Ok(report)
}

/// The trace of the file of this name; without a name it is empty.
fn trace_of<F: Files>(
    alloc: Global,
    files: &mut F,
    name: Option<&str>,
    labels: &Labels,
) -> Result<Trace, Stop>
    ensures loaded { LoadsTrace (F.told files.old) (F.told files.new) labels.now (option_map (λ (w : _). w.now) name.entry) result }
    ensures items { IfOk result (λ σ. All (IsItem labels.now) σ × (length σ ≤ MOST_FILE_BYTES)) }
    ensures keeps { KeepsFiles (F.told files.old) (F.told files.new) }
{
    match name {
        Some(name) => load_trace(alloc, files, name, labels),
        None => Ok(Trace::new(alloc)),
    }
}

/// The report on a system over the labels after the trace.
fn report(
    alloc: Global,
    mode: Mode,
    labels: &Labels,
    system: &Lts,
    trace: &[Item],
) -> Result<Report<OutsOutcome>, Memory>
    requires over { IsOver labels.now system.now }
    requires items { All (IsItem labels.now) trace.now }
    requires few { length trace.now ≤ MOST_FILE_BYTES }
    ensures { IfOk result (λ r. IsOffered mode labels.now system.now trace.now r.outcome r.text) }
{
    // the call tells what an alphabet is
    let _ = labels.count();
    match follow(alloc, mode, system, trace)? {
        Followed::States(set) => {
            let text = printed(alloc, mode, labels, system, &set)?;
            Ok(Report {
                outcome: OutsOutcome::Printed,
                text,
            })
        }
        Followed::Absent(place) => {
            let text = absent(alloc, place)?;
            Ok(Report {
                outcome: OutsOutcome::Absent { place },
                text,
            })
        }
    }
}
