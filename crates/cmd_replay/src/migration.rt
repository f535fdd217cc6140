//! `migrate`, from its words to its report.
ghost use Rattle.std.specs.Prelude.{map, string_bytes, IfOk};
ghost use Rattle.edge_io.specs.Outside.{KeepsFiles};
ghost use Rattle.log_report.specs.Migrated.{IsMigrated};
ghost use Rattle.tool_base.specs.Pages.{Answers, IsOnPage};
ghost use Rattle.cmd_replay.specs.Asked.{request_from};
ghost use Rattle.cmd_replay.specs.Given.{IsGoodOver};
ghost use Rattle.cmd_replay.specs.Migrate.{migrate_command, migrate_page};

use crate::files::{Logged, load_logged};
use crate::words::{Request, read_request};
use edge_io::Files;
use log_report::{MigrateOutcome, Migration, migrate_logs};
use lts_base::{Divergence, Memory};
use std::alloc::Global;
use tool_base::{Report, Stop, words_stop};

/// Prints the logs of a file in version 2. `words` are those after the command's name.
pub fn migrate<F: Files>(
    alloc: Global,
    files: &mut F,
    words: &[String],
) -> Result<Report<MigrateOutcome>, Stop>
    ensures answers { Answers migrate_command (map string_bytes words.now) (F.told files.old) (F.told files.new) result }
    ensures keeps { KeepsFiles (F.told files.old) (F.told files.new) }
{
    match read_request(alloc, words) {
        Ok(request) => on_files(alloc, files, &request),
        Err(error) => Err(words_stop(error)),
    }
}

/// The answer for the files that are asked for.
fn on_files<F: Files>(
    alloc: Global,
    files: &mut F,
    request: &Request<'_>,
) -> Result<Report<MigrateOutcome>, Stop>
    ensures page { IsOnPage (migrate_page (F.told files.old).content (request_from request.now)) (F.told files.old) (F.told files.new) result }
    ensures keeps { KeepsFiles (F.told files.old) (F.told files.new) }
{
    let good = load_logged(alloc, files, request)?;
    let report = report(alloc, &good, request.divergence)?;
    Ok(report)
}

/// The report on the logs.
fn report(
    alloc: Global,
    good: &Logged,
    divergence: Divergence,
) -> Result<Report<MigrateOutcome>, Memory>
    requires { IsGoodOver good.now }
    ensures { IfOk result (λ r. IsMigrated good.now.labels good.now.system good.now.digest divergence good.now.logs r.outcome r.text) }
{
    let Migration { outcome, text } = migrate_logs(
        alloc,
        &good.labels,
        &good.system,
        &good.digest,
        divergence,
        good.logs.as_slice(),
    )?;
    Ok(Report { outcome, text })
}
