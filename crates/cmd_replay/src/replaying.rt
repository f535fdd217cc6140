//! `replay`, from its words to its report.
ghost use Rattle.std.specs.Prelude.{map, string_bytes, IfOk};
ghost use Rattle.edge_io.specs.Outside.{KeepsFiles};
ghost use Rattle.log_report.specs.Replayed.{IsReplayed};
ghost use Rattle.tool_base.specs.Pages.{Answers, IsOnPage};
ghost use Rattle.cmd_replay.specs.Asked.{request_from};
ghost use Rattle.cmd_replay.specs.Given.{IsGoodOver};
ghost use Rattle.cmd_replay.specs.Replay.{replay_command, replay_page};

use crate::files::{Logged, load_logged};
use crate::words::{Request, read_request};
use edge_io::Files;
use log_report::{Replay, ReplayOutcome, replay_logs};
use lts_base::Memory;
use std::alloc::Global;
use tool_base::{Report, Stop, words_stop};

/// Tells the verdict on each log of a file, by its entries alone. `words` are those after the
/// command's name.
pub fn replay<F: Files>(
    alloc: Global,
    files: &mut F,
    words: &[String],
) -> Result<Report<ReplayOutcome>, Stop>
    ensures answers { Answers replay_command (map string_bytes words.now) (F.told files.old) (F.told files.new) result }
    ensures keeps { KeepsFiles (F.told files.old) (F.told files.new) }
{
    match read_request(alloc, words) {
        Ok(request) => on_files(alloc, files, &request),
        Err(error) => Err(words_stop(error)),
    }
}

/// The answer for the files that are asked for.
fn on_files<F: Files>(
    alloc: Global,
    files: &mut F,
    request: &Request<'_>,
) -> Result<Report<ReplayOutcome>, Stop>
    ensures page { IsOnPage (replay_page (F.told files.old).content (request_from request.now)) (F.told files.old) (F.told files.new) result }
    ensures keeps { KeepsFiles (F.told files.old) (F.told files.new) }
{
    let good = load_logged(alloc, files, request)?;
    let report = report(alloc, &good)?;
    Ok(report)
}

/// The report on the logs.
fn report(alloc: Global, good: &Logged) -> Result<Report<ReplayOutcome>, Memory>
    requires { IsGoodOver good.now }
    ensures { IfOk result (λ r. IsReplayed good.now.labels good.now.system good.now.logs r.outcome r.text) }
{
    let Replay { outcome, text } = replay_logs(
        alloc,
        &good.labels,
        &good.system,
        good.logs.as_slice(),
    )?;
    Ok(Report { outcome, text })
}
