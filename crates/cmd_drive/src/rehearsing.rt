//! `rehearse`, from its words to its report.
ghost use Rattle.std.specs.Prelude.{map, string_bytes};
ghost use Rattle.edge_io.specs.Outside.{KeepsFiles};
ghost use Rattle.tool_base.specs.Pages.{Answers, IsOnPage};
ghost use Rattle.cmd_drive.specs.AskedRehearse.{rehearse_from, IsRehearseInRange};
ghost use Rattle.cmd_drive.specs.Rehearse.{rehearse_command, rehearse_page};

use crate::rehearsal::pair_report;
use crate::rehearse_outcome::RehearseOutcome;
use crate::rehearse_words::{Rehearse, read_rehearse};
use edge_io::Files;
use std::alloc::Global;
use tool_base::{Report, Stop, digested_pair, words_stop};

/// Runs a session with an implementation that is simulated, and prints its log. `words` are those
/// after the command's name.
pub fn rehearse<F: Files>(
    alloc: Global,
    files: &mut F,
    words: &[String],
) -> Result<Report<RehearseOutcome>, Stop>
    ensures answers { Answers rehearse_command (map string_bytes words.now) (F.told files.old) (F.told files.new) result }
    ensures keeps { KeepsFiles (F.told files.old) (F.told files.new) }
{
    match read_rehearse(alloc, words) {
        Ok(request) => on_pair(alloc, files, &request),
        Err(error) => Err(words_stop(error)),
    }
}

/// The answer for the files that are asked for.
fn on_pair<F: Files>(
    alloc: Global,
    files: &mut F,
    request: &Rehearse<'_>,
) -> Result<Report<RehearseOutcome>, Stop>
    requires range { IsRehearseInRange (rehearse_from request.now) }
    ensures page { IsOnPage (rehearse_page (F.told files.old).content (rehearse_from request.now)) (F.told files.old) (F.told files.new) result }
    ensures keeps { KeepsFiles (F.told files.old) (F.told files.new) }
{
    let pair = digested_pair(
        alloc,
        files,
        request.spec,
        request.imp,
        request.sorting,
        request.divergence,
    )?;
    let report = pair_report(alloc, request, &pair)?;
    Ok(report)
}
